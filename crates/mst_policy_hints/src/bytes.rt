ghost use Rattle.std.specs.Prelude.{◌≡◌};
ghost use Rattle.mst_policy_hints.specs.Hints.{byte_text as byte_text_of};

use mst_hints::{has_order_mark, is_utf16};

/// What is told of a line that holds a byte which no line may hold, by the bytes that it begins with.
#[tactic(auto, unfolding(mst_hints::specs::Hints::bad_byte, crate::specs::Hints::order_mark_text, crate::specs::Hints::utf16_text))]
pub(crate) fn byte_text(line: &[u8]) -> &'static str
    ensures { result.now ≡ byte_text_of line.now }
{
    if has_order_mark(line) {
        "a byte order mark stands before the first word; a policy has none"
    } else if is_utf16(line) {
        "this is UTF-16; a policy is plain text of one byte a character"
    } else {
        "a line has tabs and bytes of 20 to 7E hexadecimal alone"
    }
}
