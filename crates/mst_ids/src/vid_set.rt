ghost use Rattle.std.specs.Prelude.{◌≡◌, ℕ, ◌<◌, ◌≤◌, ◌^◌, ◌+◌, ◌/◌, ◌++◌, [], ◌∷◌, not, length, take, drop, OnOk, OnErr, IfSome, MatchOption, Bool, false, slice_index, ◌||◌, ◌==◌, ◌↔◌, IsTrue};
ghost use Rattle.std.specs.Bool.{beq};
ghost use Rattle.std.specs.Cmp.{bool_eq_equiv, partial_equiv_from_equiv};
ghost use Rattle.std.specs.Cmp.Lexicographic.{pointwise, lists_equiv};
ghost use Rattle.mst_ids.specs.Vids.{is_vid, set_where, has, IsVidSet, is_within, runs_from, run_text, vids_text};
ghost use Rattle.mst_ids.specs.VidBits.{bit_of};

use crate::number::Vid;
use crate::text::{push_bytes, push_decimal};
use std::alloc::AllocError;
use std::hash::{Hash, Hasher};
use std::marker::Model;

/// A set of VIDs, 1 to 4094, of fixed size.
#[derive(Clone, Copy)]
pub struct VidSet {
    words: [u64; 64],
}

impl Model for VidSet {
    ghost use Rattle.std.specs.Prelude.{List, Bool};
    ghost use Rattle.std.specs.Coded.{coded_bool, coded_list};

    ghost Value = { List Bool };

    ghost coded = { coded_list coded_bool };

    ghost use Rattle.mst_ids.specs.VidFields.{set_of, IsKeptSet, kept_set, kept_set-set_of};

    ghost view = { set_of };

    ghost invariant = { IsKeptSet };

    ghost inverse = { kept_set };

    ghost inverse_ok = { kept_set-set_of };
}

impl VidSet {
    /// The empty set.
    pub fn none() -> VidSet
        ensures { result ≡ set_where (λ _. false) }
    {
        VidSet { words: [0; 64] }
    }

    /// The set of all VIDs, 1 to 4094.
    pub fn all() -> VidSet
        ensures { result ≡ set_where is_vid }
    {
        let mut words = [u64::MAX; 64];
        words[0] = u64::MAX - 1;
        words[63] = u64::MAX >> 1;
        VidSet { words }
    }

    /// Whether a number is a VID of the set; 0, and any from 4095 on, never is.
    pub fn contains(&self, vid: u16) -> bool
        ensures value { result ≡ has self.now vid }
        ensures set { IsVidSet self.now }
    {
        vid < 4096 && is_set(&self.words, vid)
    }

    /// Whether a block of 64 numbers, from 64 times its own number on, is seen to have no VID of the set: then none of
    /// them has to be looked at.
    pub fn misses(&self, block: u16) -> bool
        requires { block < 64 }
        ensures { IsTrue result → (n : ℕ) → n / 64 ≡ block → has self.now n ≡ false }
    {
        self.words[usize::from(block)] == 0
    }

    /// Whether there is no VID in the set.
    pub fn is_empty(&self) -> bool
        ensures { IsTrue result ↔ (self.now ≡ set_where (λ _. false)) }
    {
        *self == VidSet::none()
    }

    /// Appends the text of the set, or changes nothing: the longest runs of VIDs in rising order, with
    /// `,` between, a run of one as its number and a longer one as its first and its last with `-`
    /// between. The empty set is `-`.
    pub fn push_text(&self, out: &mut Vec<u8>) -> Result<(), AllocError>
        ensures ok { OnOk result (out.new.items ≡ out.old.items ++ vids_text self.now) }
        ensures err { OnErr result (out.new.items ≡ out.old.items) }
    {
        let len = out.len();
        let pushed = self.push_runs(out);
        if pushed.is_err() {
            out.truncate(len);
        }
        pushed
    }

    /// Appends the text of the set, or a part of it.
    fn push_runs(&self, out: &mut Vec<u8>) -> Result<(), AllocError>
        ensures ok { OnOk result (out.new.items ≡ out.old.items ++ vids_text self.now) }
        ensures err { OnErr result (take (length out.old.items) out.new.items ≡ out.old.items) }
    {
        let Some((first, last)) = self.run_from(0) else {
            return push_bytes(b"-", out);
        };
        push_run(first, last, out)?;
        let mut next = last + 1;
        while let Some((first, last)) = self.run_from(next) {
            push_bytes(b",", out)?;
            push_run(first, last, out)?;
            next = last + 1;
        }
        Ok(())
    }

    /// The first and the last VID of the next run, from a number on that no run goes across; none where no VID of the set
    /// comes any more. Where the set has few VIDs, it takes about one step for each 64 numbers.
    pub fn run_from(&self, from: u16) -> Option<(u16, u16)>
        requires { from ≤ 4095 }
        ensures runs { MatchOption result
            (runs_from from (drop from self.now) ≡ [])
            (λ run. runs_from from (drop from self.now) ≡ run ∷ runs_from (run.1 + 1) (drop (run.1 + 1) self.now)) }
        ensures range { IfSome result (λ run. (from ≤ run.1) × (run.1 ≤ 4094)) }
    {
        let _words = &self.words;
        let first = self.first_from(from, true);
        if first > 4095 {
            return None;
        }
        let end = self.first_from(first, false);
        Some((first, end - 1))
    }

    /// The first number from one on that is a member, or that is none, else 4096.
    fn first_from(&self, from: u16, member: bool) -> u16
        requires { from ≤ 4095 }
        ensures range { (from ≤ result) × (result ≤ 4096) }
        ensures passed { (n : ℕ) → from ≤ n → n < result → has self.now n ≡ not member }
        ensures found { result < 4096 → has self.now result ≡ member }
    {
        let mut number = from;
        while number < 4096 {
            if self.contains(number) == member {
                return number;
            }
            number = if member {
                self.past(number)
            } else {
                number + 1
            };
        }
        4096
    }

    /// A number past one: past the whole block of 64 numbers that begins with it, where none of them is a member.
    fn past(&self, number: u16) -> u16
        requires { number < 4096 }
        ensures above { (number < result) × (result ≤ 4096) }
        ensures passed { (n : ℕ) → number < n → n < result → has self.now n ≡ false }
    {
        if number % 64 == 0 && self.misses(number / 64) {
            number + 64
        } else {
            number + 1
        }
    }

    /// Adds a VID.
    pub fn insert(&mut self, vid: Vid)
        ensures { self.new ≡ set_where (λ n. has self.old n || is_within (vid, vid) n) }
    {
        self.insert_all(vid.value(), vid.value());
    }

    /// Adds the VIDs from the first to the last.
    pub(crate) fn insert_all(&mut self, first: u16, last: u16)
        requires least { 1 ≤ first }
        requires order { first ≤ last }
        requires greatest { last ≤ 4094 }
        ensures { self.new ≡ set_where (λ n. has self.old n || is_within (first, last) n) }
    {
        for vid in first..=last {
            set_bit(&mut self.words, vid);
        }
    }
}

impl PartialEq for VidSet {
    ghost eq = { pointwise beq };

    ghost laws = { partial_equiv_from_equiv (lists_equiv bool_eq_equiv) };

    fn eq(&self, other: &Self) -> bool {
        self.words == other.words
    }
}

impl Eq for VidSet {
    ghost laws = { lists_equiv bool_eq_equiv };
}

impl Hash for VidSet {
    ghost use Rattle.mst_ids.specs.VidFields.{fed_words, same_fed_words};

    ghost hash_input = { fed_words };

    ghost respects_eq = { same_fed_words };

    fn hash<H: Hasher>(&self, state: &mut H) {
        self.words.as_slice().hash(state);
    }
}

/// Appends the text of a run, or a part of it.
fn push_run(first: u16, last: u16, out: &mut Vec<u8>) -> Result<(), AllocError>
    ensures ok { OnOk result (out.new.items ≡ out.old.items ++ run_text (first, last)) }
    ensures err { OnErr result (take (length out.old.items) out.new.items ≡ out.old.items) }
{
    push_decimal(u64::from(first), out)?;
    if first == last {
        return Ok(());
    }
    push_bytes(b"-", out)?;
    push_decimal(u64::from(last), out)
}

/// Whether the bit of a number is set.
fn is_set(words: &[u64; 64], number: u16) -> bool
    requires { number < 4096 }
    ensures { result ≡ bit_of words.now number }
{
    words[usize::from(number / 64)] >> (number % 64) & 1 == 1
}

/// Sets the bit of a number.
fn set_bit(words: &mut [u64; 64], number: u16)
    requires { number < 4096 }
    ensures bits { (n : ℕ) → bit_of words.new n ≡ (bit_of words.old n || n == number) }
    ensures fits { (i : ℕ) → slice_index words.new i < 2 ^ 64 }
{
    words[usize::from(number / 64)] |= 1 << (number % 64);
}
