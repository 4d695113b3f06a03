// Small callers that are proved from the public contracts alone.
ghost use Rattle.std.specs.Prelude.{◌≡◌, ◌≢◌, ◌≤◌, None, Some, IfOk};
ghost use Rattle.swift_words.specs.Places.{place_fault};
ghost use Rattle.swift_words.specs.Targets.{asked_by, target_fault};

use super::*;

/// The fault of a target, if there is one.
fn fault_of_target(alloc: Global, target: &[u8]) -> Option<WordFault>
    ensures { result ≢ Some WordFault.OutOfMemory → result ≡ target_fault target.now }
{
    match read_target(alloc, target) {
        Ok(_) => None,
        Err(fault) => Some(fault),
    }
}

/// The fault of a place, if there is one.
fn fault_of_place(alloc: Global, value: &[u8]) -> Option<WordFault>
    ensures { result ≢ Some WordFault.OutOfMemory → result ≡ place_fault value.now }
{
    match read_place(alloc, value) {
        Ok(_) => None,
        Err(fault) => Some(fault),
    }
}

/// The most rows that a target asks for.
fn rows_of(alloc: Global, target: &[u8]) -> Result<u32, WordFault>
    ensures asked { IfOk result (λ rows. rows ≡ (asked_by target.now).limit) }
    ensures few { IfOk result (λ rows. rows ≤ 10000) }
{
    let (_, asked) = read_target(alloc, target)?;
    Ok(asked.limit)
}

#[test]
fn callers_are_answered(rt: HostRuntime) -> Result<(), Fail> {
    let alloc = rt.alloc();
    assert_eq!(rt; fault_of_target(alloc, b"/auth"), None);
    assert_eq!(rt; fault_of_target(alloc, b"auth"), Some(WordFault::NotPath));
    assert_eq!(rt; fault_of_place(alloc, b"box/k"), None);
    assert_eq!(rt; fault_of_place(alloc, b"box"), Some(WordFault::NotPath));
    assert_eq!(rt; rows_of(alloc, b"/auth?limit=20000")?, 10000);
    Ok(())
}
