//! The generator: its scripts beside those of a second program, and its summaries beside the journals of
//! its scripts.

ghost use Rattle.std.specs.Prelude.{◌≤◌};

use super::{Streams, WHOLE, outcome_of};
use std::alloc::Global;
use std::process::Abort;
use std::test::Fail;

/// What words of the generator write, where they end with status 0 and say nothing.
fn written(rt: &impl Abort, alloc: Global, words: &[&str]) -> Result<Vec<u8>, Fail> {
    let got = outcome_of(alloc, words, b"never read", WHOLE)?;
    assert_eq!(rt; got.status, 0);
    assert!(rt; got.err.bytes().is_empty());
    Ok(Vec::from_slice(alloc, got.out.bytes())?)
}

/// A checksum of bytes: 64 bits of FNV-1a.
fn checksum(bytes: &[u8]) -> u64 {
    let mut sum: u64 = 0xcbf2_9ce4_8422_2325;
    for byte in bytes {
        sum = (sum ^ u64::from(*byte)).wrapping_mul(0x0000_0100_0000_01b3);
    }
    sum
}

#[test]
fn the_scripts_of_seeds_are_those_of_a_second_program(rt: HostRuntime) -> Result<(), Fail> {
    for (seed, bytes, sum) in [
        ("0", 23_551, 0x9f75_bd5c_6778_a6fe),
        ("1", 23_343, 0x5543_e6e4_828f_6419),
        ("3", 23_414, 0x8525_5d7d_85df_1353),
        ("12345678901234567890", 23_392, 0x2540_7973_0646_3ee0),
        ("18446744073709551615", 23_260, 0x602b_a0e7_e839_9215),
    ] {
        let script = written(&rt, rt.alloc(), &["gen", "--seed", seed, "--script"])?;
        assert!(rt; script.starts_with(b"lispheap 1\nheap 64\nauto 4096\nthread\n".as_slice()));
        assert!(rt; script.len() == bytes && checksum(&script) == sum, "{seed}");
    }
    Ok(())
}

#[test]
fn the_summary_of_a_seed_is_the_same_twice(rt: HostRuntime) -> Result<(), Fail> {
    let first = written(&rt, rt.alloc(), &["gen", "--seed", "1"])?;
    assert!(rt; first.starts_with(b"threads 4\npages 64\ncommands 1600\nevents ".as_slice()));
    for words in [
        ["gen", "--seed", "1"].as_slice(),
        ["gen", "--seed=01"].as_slice(),
    ] {
        assert!(rt; written(&rt, rt.alloc(), words)? == first);
    }
    Ok(())
}

/// How many lines of a journal begin with a word, and how many have a word in it.
fn lines_with(journal: &str, begin: &str, inside: &str) -> u64 {
    let mut count: u64 = 0;
    for line in journal.lines() {
        if line.starts_with(begin) && line.contains(inside) {
            count = count.saturating_add(1);
        }
    }
    count
}

/// The events of a journal, by its last line.
fn events_in(journal: &str) -> u64 {
    let mut count: u64 = 0;
    for line in journal.lines() {
        if line.starts_with("done ") {
            let mut fields = line.split(' ');
            let _word = fields.next();
            let number = fields.next().and_then(|field| field.parse::<u64>().ok());
            count = number.unwrap_or(0);
        }
    }
    count
}

/// The objects that were made: each answer that is a name and a place.
fn objects_in(journal: &str) -> u64 {
    let mut count: u64 = 0;
    for line in journal.lines() {
        if line.contains(" -> #") && line.contains(" @") {
            count = count.saturating_add(1);
        }
    }
    count
}

/// The objects that died, by the lines that tell what a pass swept.
fn dead_in(journal: &str) -> u64 {
    let mut dead: u64 = 0;
    for line in journal.lines() {
        let mut fields = line.split(' ');
        if fields.next() == Some("swept") {
            let count = fields.next().and_then(|field| field.parse::<u64>().ok());
            dead = dead.saturating_add(count.unwrap_or(0));
        }
    }
    dead
}

/// The summary of a script by its journal.
fn summary_by_journal(rt: &impl Abort, alloc: Global, script: &[u8]) -> Result<String, Fail> {
    let got = outcome_of(alloc, &["replay"], script, WHOLE)?;
    assert_eq!(rt; got.status, 0);
    let bytes = Vec::from_slice(alloc, got.out.bytes())?;
    let journal = String::from_utf8(bytes).expect(rt, "text");
    counted(alloc, journal.as_str())
}

#[test]
fn twenty_summaries_are_the_counts_of_their_journals(rt: HostRuntime) -> Result<(), Fail> {
    let alloc = rt.alloc();
    for seed in 0..20_u32 {
        let seed = format!(in alloc; "{seed}")?;
        let summary = written(&rt, alloc, &["gen", "--seed", seed.as_str()])?;
        let script = written(&rt, alloc, &["gen", "--seed", seed.as_str(), "--script"])?;
        let expected = summary_by_journal(&rt, alloc, &script)?;
        assert!(rt; summary.as_slice() == expected.as_bytes(), "{seed}");
    }
    Ok(())
}

/// The summary that a journal of a generated script gives, by its lines.
fn counted(alloc: Global, journal: &str) -> Result<String, Fail> {
    let events = events_in(journal);
    Ok(format!(in alloc;
        "threads 4\npages 64\ncommands 1600\nevents {}\nobjects {}\ncollections {}\npasses {}\nmoved {}\npinned {}\nstayed {}\ndead {}\nculled {}\nbroken {}\nqueued {}\nfreed {}\n",
        events,
        objects_in(journal),
        lines_with(journal, "", " collect "),
        lines_with(journal, "pass ", ""),
        lines_with(journal, "move ", ""),
        lines_with(journal, "pin ", ""),
        lines_with(journal, "stay ", ""),
        dead_in(journal),
        lines_with(journal, "cull ", ""),
        lines_with(journal, "break ", ""),
        lines_with(journal, "queue ", ""),
        lines_with(journal, "free ", "")
    )?)
}

#[test]
fn the_generator_reads_nothing(rt: HostRuntime) -> Result<(), Fail> {
    let alloc = rt.alloc();
    // The source would fail at its first call.
    let unread = Streams {
        source_fails: &[0, 1, 2, 3],
        ..WHOLE
    };
    let got = outcome_of(alloc, &["gen", "--seed=5"], b"", unread)?;
    assert_eq!(rt; got.status, 0);
    let whole = written(&rt, alloc, &["gen", "--seed=5"])?;
    assert!(rt; got.out.bytes() == whole.as_slice());
    Ok(())
}

#[test]
fn the_generator_stops_where_the_output_fails(rt: HostRuntime) -> Result<(), Fail> {
    let alloc = rt.alloc();
    let whole = written(&rt, alloc, &["gen", "--seed=5"])?;
    // A few bytes at a time, and the third call of the output fails.
    let stopped = Streams {
        most: 7,
        out_fails: &[2],
        ..WHOLE
    };
    let got = outcome_of(alloc, &["gen", "--seed=5"], b"", stopped)?;
    assert_eq!(rt; got.status, 5);
    assert!(rt; got.err.bytes() == b"lispheap: write fault\n".as_slice());
    assert!(rt; got.out.bytes().len() == 14 && whole.starts_with(got.out.bytes()));
    Ok(())
}

#[test]
fn words_of_no_form_of_the_generator(rt: HostRuntime) -> Result<(), Fail> {
    for words in [
        ["gen"].as_slice(),
        ["gen", "--seed"].as_slice(),
        ["gen", "--script", "--seed", "1"].as_slice(),
        ["gen", "--seed", "18446744073709551616"].as_slice(),
        ["gen", "--seed=000000000000000000001"].as_slice(),
        ["gen", "--seed", "1", "--seed", "1"].as_slice(),
    ] {
        let got = outcome_of(rt.alloc(), words, b"", WHOLE)?;
        assert_eq!(rt; got.status, 2);
        assert!(rt; got.out.bytes().is_empty());
        assert!(rt; got.err.bytes() == b"lispheap: usage\n".as_slice());
    }
    Ok(())
}
