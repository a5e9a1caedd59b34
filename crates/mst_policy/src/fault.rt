ghost use Rattle.std.specs.Prelude.{◌≡◌};
ghost use Rattle.mst_policy.specs.Faults.{text_of};

use mst_lang::Fault;

/// What is printed after the number of a fault of a policy's line.
pub fn text(fault: Fault) -> &'static str
    ensures { result.now ≡ text_of fault }
{
    match fault {
        Fault::E01 => "no such expectation",
        _ => fault.text(),
    }
}
