ghost use Rattle.std.specs.Prelude.{◌≡◌, ◌<◌, ◌≤◌, ◌^◌, ◌==◌, true, length, position, IfSome};
ghost use Rattle.std.specs.Char.{is_ascii_digit as digit};
ghost use Rattle.std.specs.List.{list_all};
ghost use Rattle.std.specs.Option.{option_map};
ghost use Rattle.std.specs.Result.{result_ok};
ghost use Rattle.mst_ids.specs.Vids.{decimal_value, vid_value, halves_of, range_of, vids_value};

use crate::text::BadText;
use crate::vid_set::VidSet;

/// The set that a list of VIDs names: items with `,` between, where an item is a VID, or two with `-`
/// between and the first not greater than the second. A VID is 1 to 10 decimal digits, of value 1 to
/// 4094. Items may overlap, and come in any order. Any other text is `BadText`.
pub fn parse_vids(text: &[u8]) -> Result<VidSet, BadText>
    ensures { result_ok result ≡ vids_value text.now }
{
    let mut vids = VidSet::none();
    for item in text.split(|byte| *byte == b',') {
        let Some((first, last)) = range(item) else {
            return Err(BadText);
        };
        vids.insert_all(first, last);
    }
    Ok(vids)
}

/// The first and the last VID of an item.
fn range(item: &[u8]) -> Option<(u16, u16)>
    ensures value { result ≡ range_of item.now }
    ensures vids { IfSome result (λ range. (1 ≤ range.0) × (range.0 ≤ range.1) × (range.1 ≤ 4094)) }
{
    let Some((first, last)) = halves(item) else {
        let vid = vid(item)?;
        return Some((vid, vid));
    };
    let first = vid(first)?;
    let last = vid(last)?;
    (first <= last).then_some((first, last))
}

/// What stands before the first dash of an item and what stands after it.
fn halves(item: &[u8]) -> Option<(&[u8], &[u8])>
    ensures { option_map (λ halves. (halves.0.now, halves.1.now)) result ≡ halves_of item.now }
{
    let dash = first_dash(item)?;
    Some((&item[..dash], &item[dash + 1..]))
}

fn first_dash(item: &[u8]) -> Option<usize>
    ensures value { result ≡ position (λ b. b == 45) item.now }
    ensures within { IfSome result (λ dash. dash < length item.now) }
{
    item.iter().position(|byte| *byte == b'-')
}

/// A VID of 1 to 10 decimal digits.
fn vid(text: &[u8]) -> Option<u16>
    ensures value { result ≡ vid_value text.now }
    ensures vid { IfSome result (λ vid. (1 ≤ vid) × (vid ≤ 4094)) }
{
    if text.is_empty() || text.len() > 10 || !are_digits(text) {
        return None;
    }
    let number = decimal(text);
    if number < 1 || number > 4094 {
        return None;
    }
    Some(number as u16)
}

fn are_digits(text: &[u8]) -> bool
    ensures { result ≡ list_all digit text.now }
{
    text.iter().all(|byte| byte.is_ascii_digit())
}

/// The value of decimal digits.
fn decimal(digits: &[u8]) -> u64
    requires few { length digits.now ≤ 10 }
    requires digits { list_all digit digits.now ≡ true }
    ensures { result ≡ decimal_value digits.now }
{
    let mut value = 0;
    for digit in digits {
        value = value * 10 + u64::from(digit - b'0');
    }
    value
}
