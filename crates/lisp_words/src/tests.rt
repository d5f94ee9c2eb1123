//! Each call once, with words from the table of layouts.

use crate::{Lowtag, fixnum, header, page_type, read_fixnum, read_header, size_of, tag, untag};
use heap_terms::{Kind, PageType};

#[test]
fn references_have_the_low_tag_of_their_kind(rt: HostRuntime) {
    assert_eq!(rt; tag(0, Kind::Cons), 0x10_0000_0007);
    assert_eq!(rt; tag(512, Kind::Vector), 0x10_0000_100F);
    assert_eq!(rt; untag(0x10_0000_1007), Some((512, Lowtag::List)));
    assert_eq!(rt; untag(0x10_003F_FFFB), Some((524286, Lowtag::Function)));
    for word in [
        7,
        0x10_0000_0001,
        0x10_0000_000A,
        0x10_0040_0003,
        0x117,
        0x51,
    ] {
        assert_eq!(rt; untag(word), None, "at {word}");
    }
}

#[test]
fn fixnums_are_twice_the_number(rt: HostRuntime) {
    assert_eq!(rt; fixnum(-6), Some(0xFFFF_FFFF_FFFF_FFF4));
    assert_eq!(rt; fixnum(4611686018427387903), Some(0x7FFF_FFFF_FFFF_FFFE));
    assert_eq!(rt; fixnum(4611686018427387904), None);
    assert_eq!(rt;
        read_fixnum(0x8000_0000_0000_0000),
        Some(-4611686018427387904)
    );
    assert_eq!(rt; (read_fixnum(10), read_fixnum(0x117)), (Some(5), None));
}

#[test]
fn headers_tell_kind_and_payload(rt: HostRuntime) {
    assert_eq!(rt; header(Kind::Table, 7), 0x731);
    assert_eq!(rt; read_header(0x235), Some((Kind::Closure, 2)));
    for word in [0, 0x41, 0x39, 0x0100_0000_0000_0021] {
        assert_eq!(rt; read_header(word), None, "at {word}");
    }
    assert_eq!(rt;
        (size_of(Kind::Cons, 2), size_of(Kind::Vector, 512)),
        (2, 514)
    );
    assert_eq!(rt; page_type(Kind::Words), PageType::Unboxed);
}
