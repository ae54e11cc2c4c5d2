//! The numbers of three made machines.
ghost use Rattle.std.specs.Prelude.{◌≡◌, ◌<◌};
ghost use Rattle.clk_make.specs.Numbers.{made_steps};

use crate::machine::machine_of;
use crate::word::cpus_of;
use clk_machine::Machine;
use std::test::Fail;

/// The script words of all threads.
fn words_of(machine: &Machine) -> u64 {
    let mut words = 0;
    for thread in 0..machine.threads() {
        words += machine.words(thread) as u64;
    }
    words
}

/// The steps of a run of machine `n`.
fn steps_of(n: u32) -> u32
    requires { n < 65536 }
    ensures { result ≡ made_steps n }
{
    4_608 * cpus_of(n) + 3_072 * (n % 4)
}

#[test]
fn machine_0_has_two_cpus(rt: HostRuntime) -> Result<(), Fail> {
    let machine = machine_of(rt.alloc(), 0)?;
    assert_eq!(rt; machine.cpus(), 2);
    assert_eq!(rt; machine.readers(), 0);
    assert_eq!(rt; words_of(&machine), 8_192);
    assert_eq!(rt; machine.tickets_needed(), 18_947);
    assert_eq!(rt; steps_of(0), 9_216);
    Ok(())
}

#[test]
fn machine_1_has_a_reader(rt: HostRuntime) -> Result<(), Fail> {
    let machine = machine_of(rt.alloc(), 1)?;
    assert_eq!(rt; machine.cpus(), 3);
    assert_eq!(rt; machine.readers(), 1);
    assert_eq!(rt; words_of(&machine), 14_336);
    assert_eq!(rt; machine.tickets_needed(), 26_627);
    assert_eq!(rt; steps_of(1), 16_896);
    Ok(())
}

#[test]
fn machine_14_has_the_most_cpus(rt: HostRuntime) -> Result<(), Fail> {
    let machine = machine_of(rt.alloc(), 14)?;
    assert_eq!(rt; machine.cpus(), 16);
    assert_eq!(rt; machine.readers(), 2);
    assert_eq!(rt; words_of(&machine), 69_632);
    assert_eq!(rt; machine.tickets_needed(), 139_267);
    assert_eq!(rt; steps_of(14), 79_872);
    Ok(())
}
