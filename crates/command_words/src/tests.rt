//! Words of the generator, and words that are none.

use super::*;
use heap_terms::Memory;
use std::alloc::{AllocError, Global};

/// The words as the program is given them.
fn spoken(alloc: Global, words: &[&str]) -> Result<Vec<String>, AllocError> {
    let mut spoken = Vec::new(alloc);
    for word in words {
        spoken.push(String::from_str(alloc, word)?)?;
    }
    Ok(spoken)
}

#[test]
fn words_that_ask_for_the_generator(rt: HostRuntime) -> Result<(), Memory> {
    let alloc = rt.alloc();
    let largest = "18446744073709551615";
    for (words, seed, script) in [
        (["gen", "--seed", "0"].as_slice(), 0, false),
        (["gen", "--seed=1"].as_slice(), 1, false),
        (["gen", "--seed=0042", "--script"].as_slice(), 42, true),
        (
            ["gen", "--seed", "00000000000000000007"].as_slice(),
            7,
            false,
        ),
        (
            ["gen", "--seed", largest, "--script"].as_slice(),
            u64::MAX,
            true,
        ),
    ] {
        let spoken = spoken(alloc, words)?;
        assert!(rt; is_generate(&spoken));
        if is_generate(&spoken) {
            assert!(rt; read_generate(alloc, &spoken)? == Wanted { seed, script });
        }
    }
    Ok(())
}

#[test]
fn words_of_no_form_are_told_from_those_of_one(rt: HostRuntime) -> Result<(), Memory> {
    for (words, asks) in [
        ([].as_slice(), false),
        (["gen"].as_slice(), false),
        (["gen", "--seed=7"].as_slice(), true),
        (["gen", "--seed"].as_slice(), false),
        (["gen", "--seed="].as_slice(), false),
        (["gen", "--seed", "--script"].as_slice(), false),
        (["gen", "--script", "--seed", "1"].as_slice(), false),
        (["gen", "--script", "--seed=1"].as_slice(), false),
        (["gen", "--seed", "1", "--seed", "1"].as_slice(), false),
        (["gen", "--seed=1", "--seed=1"].as_slice(), false),
        (
            ["gen", "--seed", "1", "--script", "--script"].as_slice(),
            false,
        ),
        (["gen", "--seed", "+1"].as_slice(), false),
        (["gen", "--seed", "-1"].as_slice(), false),
        (["gen", "--seed", "1x"].as_slice(), false),
        (["gen", "--seed", "18446744073709551616"].as_slice(), false),
        (["gen", "--seed", "99999999999999999999"].as_slice(), false),
        (["gen", "--seed", "000000000000000000001"].as_slice(), false),
        (["gen", "--seed=18446744073709551616"].as_slice(), false),
        (["gen", "-seed", "1"].as_slice(), false),
        (["gene", "--seed", "1"].as_slice(), false),
        (["gen", "--seed", "1", "--words"].as_slice(), false),
    ] {
        let spoken = spoken(rt.alloc(), words)?;
        assert!(rt; is_generate(&spoken) == asks);
    }
    Ok(())
}
