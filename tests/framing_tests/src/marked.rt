//! Items of a mark, a number, and so many bytes as it says.

use framing::{FirstItem, Framing, read_item};

/// The greatest number of an item.
pub(crate) const MOST: u8 = 9;

/// Three items, whose marks are `ab`.
pub(crate) const THREE: &[u8; 14] = b"ab\x02hiab\0ab\x03yes";

/// Why no item has a lead or a header.
#[derive(Clone, Copy, Debug, PartialEq, Eq)]
pub(crate) enum MarkFault {
    /// The mark isn't `ab`.
    Mark,
    /// The number is above the greatest one.
    Number(u8),
}

/// Items whose lead is the mark `ab`, and whose header is that and a number.
#[derive(Clone, Copy, Debug, PartialEq, Eq)]
pub(crate) struct Marked;

impl Framing for Marked {
    ghost use Rattle.std.specs.Prelude.{◌+◌, ◌==◌, ◌&&◌, Ok, Err, if◌then◌else◌, nat_lt};
    ghost use Rattle.std.specs.Prelude.{slice_index};
    ghost use Rattle.std.proofs.Common.{arith};
    ghost use Rattle.std.proofs.lemmas.Bool.Decides.{nat_tests};
    ghost use Rattle.framing_tests.specs.declared.marked.MarkFault.TheVariants.{Mark, Number};

    type Fault = MarkFault;

    ghost rule = { λ x. record {
      lead = 2;
      check = λ b. if (slice_index b 0 == 97) && (slice_index b 1 == 98) then Ok tt else Err Mark;
      header = 3;
      total = λ b. if nat_lt 9 (slice_index b 2) then Err (Number (slice_index b 2))
          else Ok (3 + slice_index b 2);
    } };

    fn lead_len(&self) -> usize {
        2
    }

    fn check_lead(&self, lead: &[u8]) -> Result<(), MarkFault> {
        if lead == b"ab".as_slice() {
            Ok(())
        } else {
            Err(MarkFault::Mark)
        }
    }

    fn header_len(&self) -> usize {
        3
    }

    fn total(&self, header: &[u8]) -> Result<usize, MarkFault> {
        let number = header[2];
        if number > MOST {
            Err(MarkFault::Number(number))
        } else {
            Ok(3 + number as usize)
        }
    }

    ghost sound = { λ x. record {
      some = omega arith;
      begins = omega arith;
      least = λ b n is. grind (arith, nat_tests, is);
    } };
}

/// Returns true if `bytes` begin with an item of this length.
fn is_whole(bytes: &[u8], len: usize) -> bool {
    match read_item(&Marked, bytes) {
        FirstItem::Whole { item, rest } => item.len() == len && bytes.split_at(len) == (item, rest),
        _ => false,
    }
}

/// Returns true if `bytes` want so many more.
fn is_open(bytes: &[u8], more: usize) -> bool {
    match read_item(&Marked, bytes) {
        FirstItem::Open { wanted } => wanted == more,
        _ => false,
    }
}

/// Returns true if no item begins with `bytes`, for this reason.
fn is_bad(bytes: &[u8], why: MarkFault) -> bool {
    match read_item(&Marked, bytes) {
        FirstItem::Bad(fault) => fault == why,
        _ => false,
    }
}

#[test]
fn items_are_told(rt: HostRuntime) {
    assert!(rt; is_whole(THREE, 5));
    assert!(rt; is_whole(&THREE[5..], 3));
    assert!(rt; is_open(b"", 2));
    assert!(rt; is_open(b"a", 1));
    assert!(rt; is_open(b"ab", 1));
    assert!(rt; is_open(b"ab\x02", 2));
    assert!(rt; is_open(b"ab\x02h", 1));
}

#[test]
fn a_lead_is_checked_before_its_header_is_there(rt: HostRuntime) {
    assert!(rt; is_open(b"b", 1));
    assert!(rt; is_bad(b"ba", MarkFault::Mark));
    assert!(rt; is_bad(b"ba\x0a", MarkFault::Mark));
    assert!(rt; is_bad(b"ab\x0a", MarkFault::Number(10)));
}
