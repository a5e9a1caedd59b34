ghost use Rattle.std.specs.Prelude.{◌≡◌, ◌+◌, ◌*◌, ◌≤◌, length};
ghost use Rattle.mst_bpdu.specs.Layout.{msti_messages};

use crate::bpdu::MstiMessage;
use crate::layout::msti_message;
use crate::octets::rest_from;
use std::marker::Model;

/// The most MSTI messages that a BPDU may have.
pub(crate) const MOST_MESSAGES: usize = 64;

/// The MSTI messages of a BPDU in their order, at most 64, in a place of fixed size.
#[derive(Drop)]
pub struct MstiMessages {
    messages: [MstiMessage; MOST_MESSAGES],
    count: usize,
}

impl Model for MstiMessages {
    ghost use Rattle.std.specs.Prelude.{List, take, ◌≤◌};
    ghost use Rattle.mst_bpdu.specs.declared.bpdu.MstiMessage.{MstiMessage};

    ghost Value = { List MstiMessage };

    ghost view = { λ a. take a.count a.messages };

    ghost invariant = { λ a. a.count ≤ 64 };
}

impl MstiMessages {
    /// The messages, as many as are asked for, of an MST BPDU.
    #[tactic(auto, unfolding(crate::specs::Layout::msti_messages))]
    pub(crate) fn read(bpdu: &[u8], count: usize) -> MstiMessages
        requires most { count ≤ 64 }
        requires whole { 102 + 16 * count ≤ length bpdu.now }
        ensures { result ≡ msti_messages count bpdu.now }
    {
        let mut messages = [msti_message(&[0; 16]); MOST_MESSAGES];
        for i in 0..count {
            messages[i] = msti_message(rest_from(bpdu, 103 + 16 * i));
        }
        MstiMessages { messages, count }
    }

    /// The messages.
    pub fn as_slice(&self) -> &[MstiMessage]
        ensures { result.now ≡ self.now }
    {
        &self.messages[..self.count]
    }
}
