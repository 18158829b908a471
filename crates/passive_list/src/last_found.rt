//! Which entry a CPU found last.

ghost use Rattle.std.specs.Prelude.{◌≡◌, ◌≢◌, IsTrue, None, false};
ghost use Rattle.passive_list.specs.Cpus.{IsFoundLast};

use crate::plain_cpu::PlainCpu;

/// Whether the CPU's last found entry is the one with that number.
#[inline(always)]
pub fn is_found_last(cpu: &PlainCpu, number: u64) -> bool
    ensures yes { IsTrue result → IsFoundLast cpu.now.cpu.view number }
    ensures no { result ≡ false → IsFoundLast cpu.now.cpu.view number → ⊥ }
{
    let found = cpu.found;
    if found.number == 0 {
        return false;
    }
    found.number == number
}

/// Whether it is the one with that number, which is no entry's if it is 0. A CPU that has a last found entry is inside.
#[inline(always)]
pub fn is_open_last(cpu: &PlainCpu, number: u64) -> bool
    requires begun { number ≢ 0 }
    ensures yes { IsTrue result → IsFoundLast cpu.now.cpu.view number }
    ensures inside { IsTrue result → cpu.now.cpu.view.begin ≢ None }
{
    number == cpu.found.number
}
