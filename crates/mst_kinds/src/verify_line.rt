ghost use Rattle.std.specs.Prelude.{◌≡◌};
ghost use Rattle.mst_kinds.specs.Kinds.{first_of_verify_line, parts_behind_step, parts_of_verify_line};

use crate::mark::Mark;
use crate::part::{Part, parts};

/// A line of whether a network does what a policy promises. PLACE is `now`, `lan L`, `bridge B` or `risk NAME`.
#[derive(Clone, Copy)]
pub enum VerifyLine {
    /// `fails N PLACE root T R of M`
    OtherRoot,
    /// `fails N PLACE root T -`
    NoRoot,
    /// `fails N PLACE root T B next D`
    OtherNext,
    /// `fails N PLACE region parts B,.. ..`
    Region,
    /// `fails N PLACE role T B:P,.. ROLE`
    Role,
    /// `fails N PLACE reach VIDS parts B,.. ..`
    Reach,
    /// `fails N PLACE apart VIDS joined B,.. ..`
    Apart,
    /// `fails N PLACE leaves VIDS joined B,.. ..`
    Leaves,
    /// `fails N PLACE together VIDS parts B,.. ..`
    Together,
    /// `fails N PLACE leaf T B parent of C,..`
    Leaf,
    /// `fails N PLACE depth T D B,..`
    Depth,
    /// `fails N PLACE carries L without VIDS`
    Carries,
    /// `fails N PLACE avoids L with VIDS`
    Avoids,
    /// `fails N PLACE hops VIDS D A,B`
    TooManyHops,
    /// `fails N PLACE via VIDS by A,..,B`
    NotVia,
    /// `fails N PLACE note hops T B depth D limit H`
    Hops,
    /// `fails N PLACE note age B depth D limit M`
    Age,
    /// `fails N PLACE note cost T B ext C`
    ExternalCost,
    /// `fails N PLACE note cost T B int C`
    InternalCost,
    /// `same N failures M`
    Same,
    /// `verify expectations N hold M`
    Counts,
}

impl VerifyLine {
    /// The first word.
    pub fn first(self) -> Mark
        ensures { result ≡ first_of_verify_line self }
    {
        match self {
            VerifyLine::OtherRoot => Mark::Fails,
            VerifyLine::NoRoot => Mark::Fails,
            VerifyLine::OtherNext => Mark::Fails,
            VerifyLine::Region => Mark::Fails,
            VerifyLine::Role => Mark::Fails,
            VerifyLine::Reach => Mark::Fails,
            VerifyLine::Apart => Mark::Fails,
            VerifyLine::Leaves => Mark::Fails,
            VerifyLine::Together => Mark::Fails,
            VerifyLine::Leaf => Mark::Fails,
            VerifyLine::Depth => Mark::Fails,
            VerifyLine::Carries => Mark::Fails,
            VerifyLine::Avoids => Mark::Fails,
            VerifyLine::TooManyHops => Mark::Fails,
            VerifyLine::NotVia => Mark::Fails,
            VerifyLine::Hops => Mark::Fails,
            VerifyLine::Age => Mark::Fails,
            VerifyLine::ExternalCost => Mark::Fails,
            VerifyLine::InternalCost => Mark::Fails,
            VerifyLine::Same => Mark::Same,
            VerifyLine::Counts => Mark::Verify,
        }
    }

    /// What stands behind it.
    pub fn parts(self) -> &'static [Part]
        ensures { result.now ≡ parts_of_verify_line self }
    {
        match self.parts_behind_step() {
            [_, parts @ ..] => parts,
            [] => parts![],
        }
    }

    /// The same of a line behind a step, which has the number of that step in front, in its record alone.
    pub fn parts_behind_step(self) -> &'static [Part]
        ensures { result.now ≡ parts_behind_step self }
    {
        match self {
            VerifyLine::OtherRoot =>
                parts![Above Step, Key Line, Key Failure, Said Expectation Root, Key Tree, Key Root, Mark Of, Key BridgeCount],
            VerifyLine::NoRoot =>
                parts![Above Step, Key Line, Key Failure, Said Expectation Root, Key Tree, Key Root],
            VerifyLine::OtherNext =>
                parts![Above Step, Key Line, Key Failure, Said Expectation Root, Key Tree, Key Root, Mark Next, Key Next],
            VerifyLine::Region =>
                parts![Above Step, Key Line, Key Failure, Said Expectation Region, Mark Parts, Key Parts],
            VerifyLine::Role =>
                parts![Above Step, Key Line, Key Failure, Said Expectation Role, Key Tree, Commas Ports, Key Role],
            VerifyLine::Reach =>
                parts![Above Step, Key Line, Key Failure, Said Expectation Reach, Key Vids, Mark Parts, Key Parts],
            VerifyLine::Apart =>
                parts![Above Step, Key Line, Key Failure, Said Expectation Apart, Key Vids, Mark Joined, Key Joined],
            VerifyLine::Leaves =>
                parts![Above Step, Key Line, Key Failure, Said Expectation Leaves, Key Vids, Mark Joined, Key Joined],
            VerifyLine::Together =>
                parts![Above Step, Key Line, Key Failure, Said Expectation Together, Key Vids, Mark Parts, Key Parts],
            VerifyLine::Leaf =>
                parts![Above Step, Key Line, Key Failure, Said Expectation Leaf, Key Tree, Key Bridge, Mark Parent, Mark Of, Commas Bridges],
            VerifyLine::Depth =>
                parts![Above Step, Key Line, Key Failure, Said Expectation Depth, Key Tree, Key Depth, Commas Bridges],
            VerifyLine::Carries =>
                parts![Above Step, Key Line, Key Failure, Said Expectation Carries, Key Lan, Mark Without, Key Vids],
            VerifyLine::Avoids =>
                parts![Above Step, Key Line, Key Failure, Said Expectation Avoids, Key Lan, Mark With, Key Vids],
            VerifyLine::TooManyHops =>
                parts![Above Step, Key Line, Key Failure, Said Expectation Hops, Key Vids, Key HopCount, Commas Bridges],
            VerifyLine::NotVia =>
                parts![Above Step, Key Line, Key Failure, Said Expectation Via, Key Vids, Mark By, Commas Bridges],
            VerifyLine::Hops =>
                parts![Above Step, Key Line, Key Failure, Told Expectation Fits, Mark Note, Said Note Hops, Key Tree, Key Bridge, Mark Depth, Key Depth, Mark Limit, Key Limit],
            VerifyLine::Age =>
                parts![Above Step, Key Line, Key Failure, Told Expectation Fits, Mark Note, Said Note Age, Above Tree, Key Bridge, Mark Depth, Key Depth, Mark Limit, Key Limit],
            VerifyLine::ExternalCost =>
                parts![Above Step, Key Line, Key Failure, Told Expectation Fits, Mark Note, Said Note Cost, Key Tree, Key Bridge, Mark Ext, Key Ext],
            VerifyLine::InternalCost =>
                parts![Above Step, Key Line, Key Failure, Told Expectation Fits, Mark Note, Said Note Cost, Key Tree, Key Bridge, Mark Int, Key Int],
            VerifyLine::Same => parts![Above Step, Key Line, Mark Failures, Key FailureCount],
            VerifyLine::Counts =>
                parts![Above Step, Mark Expectations, Key ExpectationCount, Mark Hold, Key HoldCount, Above Promises],
        }
    }
}
