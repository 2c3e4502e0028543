// Which calls of a host or a source in memory are to fail.
ghost use Rattle.std.specs.Prelude.{IsTrue, ◌↔◌, Contains};

/// Whether the call with this number, from 1, is to fail.
pub fn is_planned(fail: &[u64], number: u64) -> bool
    ensures { IsTrue result ↔ Contains fail.now number }
{
    fail.contains(&number)
}
