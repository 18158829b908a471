//! Passive references as C holds them, through the handle of a CPU: what a second release returns, and one on another CPU.

ghost use Rattle.std.specs.Prelude.{◌≡◌, ◌≢◌, Some};
ghost use Rattle.registry_values.specs.Common.{number_of_refusal};
ghost use Rattle.passive_list.specs.Common.{OnPlainCpu};
ghost use Rattle.passive_ref.specs.{HasOneLess};
ghost use Rattle.c_handles.specs.declared.values.plain.TheConstants.{DONE, EMPTY_HANDLE};
ghost use Rattle.c_calls.specs.Types.{WrongCpu};
ghost use Rattle.c_callers.specs.{IsAnothers};

use c_calls::references::release;
use c_handles::handle::CpuHandle;
use c_handles::values::plain::CPassive;

/// Releases a reference twice. Returns what both calls return. If the first one is done, the second finds the reference empty (`empty`), and the
/// CPU has lost one reference by the two (`once`).
pub fn release_twice(cpu: &mut CpuHandle, reference: &mut CPassive) -> (u32, u32)
    ensures empty { result.0 ≡ DONE → result.1 ≡ EMPTY_HANDLE }
    ensures once { (a : OnPlainCpu) → cpu.old.body ≡ Some a → result.0 ≡ DONE
        → (b : OnPlainCpu) × (cpu.new.body ≡ Some b) × HasOneLess reference.old.entry.number a.cpu b.cpu }
{
    let first = release(cpu, reference);
    let second = release(cpu, reference);
    (first, second)
}

/// Releases a reference on another CPU than its own, and takes nothing away. Returns what the call returns.
/// Condition: there is a CPU, and the reference is another one's.
pub fn release_elsewhere(cpu: &mut CpuHandle, reference: &mut CPassive) -> u32
    requires { IsAnothers reference.old cpu.old.body }
    ensures wrong { result ≡ number_of_refusal WrongCpu }
    ensures same { (cpu.new.body ≡ cpu.old.body) × (reference.new ≡ reference.old) }
{
    release(cpu, reference)
}
