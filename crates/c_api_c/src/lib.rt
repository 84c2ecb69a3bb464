// The static library for C: one export, which calls the function of c_api.
#![tactic(auto)]

ghost use Rattle.std.specs.Prelude.{◌≡◌, ◌/◌, length};
ghost use Rattle.house.specs.Piles.{house_cut};
ghost use Rattle.house.specs.Hall.{InTheHallsWords};
ghost use Rattle.report.specs.Planning.{plan_slip};
ghost use Rattle.c_api.specs.Answers.{answer, buffer_after};

/// Plans a slip for a C program.
///
/// Answers the outcome (0 open, 1 found, 2 impossible); for a faulty slip its number + 100 × its line
/// + 1,000,000 × the refusal inside; else 11 for looks of 0 or above 1,000,000, or 14 for a buffer
/// below 2 bytes a job. On found the buffer has each start as two bytes, low byte first; its other
/// bytes, and on all else the whole buffer, are untouched.
// The same once more as in c_api: a crate is a library or a static library, and tests stand on the library.
#[unsafe(no_mangle)]
pub extern "C" fn riuvelde_plan(slip: &[u8], looks: u32, buffer: &mut [u8]) -> u32
    ensures answer { result ≡ answer (plan_slip house_cut slip.now looks (length buffer.old / 2)) }
    ensures buffer { buffer.new ≡ buffer_after (plan_slip house_cut slip.now looks (length buffer.old / 2)) buffer.old }
    ensures hall { InTheHallsWords slip.now looks (length buffer.old / 2) (plan_slip house_cut slip.now looks (length buffer.old / 2)) }
{
    c_api::call::riuvelde_plan(slip, looks, buffer)
}
