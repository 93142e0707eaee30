//! Records as items that tell their length.

ghost use Rattle.wire_frames.specs.RecordRule.{record_rule, record_sound};

use crate::fault::{RecordCause, RecordFault, fault_at};
use crate::head::{HEAD_LEN, RecordHead};
use bson_elem::little_u32;
use framing::Framing;
use wire_msg::HEADER_LEN;

/// Records whose messages have at most `limit` bytes. The head is checked before the header of the
/// message is there.
#[derive(Clone, Copy, Debug, PartialEq, Eq)]
pub(crate) struct WireRecords {
    /// How many bytes a message has at most.
    pub(crate) limit: u32,
}

impl Framing for WireRecords {
    type Fault = RecordFault;

    ghost rule = { λ x. record_rule x.limit };

    fn lead_len(&self) -> usize {
        HEAD_LEN
    }

    fn check_lead(&self, lead: &[u8]) -> Result<(), RecordFault> {
        let Some((head, _)) = lead.split_first_chunk::<20>() else {
            unreachable!();
        };
        match RecordHead::read(head) {
            Ok(_) => Ok(()),
            Err(fault) => Err(fault),
        }
    }

    fn header_len(&self) -> usize {
        HEAD_LEN + HEADER_LEN as usize
    }

    fn total(&self, header: &[u8]) -> Result<usize, RecordFault> {
        let announced = little_u32(&header[HEAD_LEN..HEAD_LEN + 4]);
        let len = HEAD_LEN + announced as usize;
        if len < HEAD_LEN + HEADER_LEN as usize || len > HEAD_LEN + self.limit as usize {
            return Err(fault_at(HEAD_LEN, RecordCause::Length));
        }
        Ok(len)
    }

    ghost sound = { λ x. record_sound x.limit };
}
