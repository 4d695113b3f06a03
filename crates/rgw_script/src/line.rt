//! One line of a script's text: played, and printed.
ghost use Rattle.std.specs.Prelude.{◌≡◌, ◌+◌, ◌-◌, ◌^◌, ◌<◌, ◌≤◌, ℕ, List, length, OnOk, IfErr};
ghost use Rattle.std.specs.Io.KnownBytes.{Appends};
ghost use Rattle.script_lines.specs.declared.reader.TheConstants.{LINE_LIMIT};
ghost use Rattle.rgw_script.specs.Plays.{PlaysOne};
ghost use Rattle.rgw_script.specs.Printing.{Refuses, CountsWrite};
ghost use Rattle.rgw_script.specs.Runs.{LeavesText};
ghost use Rattle.rgw_script.specs.Stages.{scene_of, Holds, IsOpen};

use crate::fault::ScriptFault;
use crate::script::Script;
use gw_io::{Sink, write_all};
use realm_core::Realm;
use realm_model::Settings;
use script_player::lines_have_few_bytes;
use script_words::{lines_have_one_meaning, push_bad_line, read_line};
use std::alloc::Global;

/// Says that the line of this number is bad. The script ends with the fault that is answered.
pub(crate) fn refuse<K: Sink>(output: &mut K, out: &mut Vec<u8>, number: u64) -> ScriptFault
    ensures refused { Refuses (K.taken output.old) (K.taken output.new) number result }
    ensures cause { CountsWrite (K.faults output.old) (K.faults output.new) result }
{
    out.clear();
    if push_bad_line(out, number).is_err() {
        return ScriptFault::OutOfMemory;
    }
    match write_all(output, out.as_slice()) {
        Ok(()) => ScriptFault::BadLine { line: number },
        Err(_) => ScriptFault::WriteFault,
    }
}

/// Plays the line that a text is, the one of this number, and writes what it prints.
pub(crate) fn play_text<K: Sink>(
    alloc: Global,
    settings: &Settings,
    script: &mut Script,
    realm: &mut Realm,
    text: &[u8],
    number: u64,
    output: &mut K,
    out: &mut Vec<u8>,
) -> Result<(), ScriptFault>
    requires room { script.old.next < 2 ^ 64 - 1 }
    requires short { length text.now ≤ LINE_LIMIT }
    requires holds { Holds settings.now script.old realm.old }
    ensures holds { OnOk result (Holds settings.now script.new realm.new) }
    ensures played { OnOk result ((printed : List ℕ)
        × PlaysOne settings.now (scene_of script.old realm.old.history) text.now (scene_of script.new realm.new.history) printed
        × Appends (K.taken output.old) (K.taken output.new) printed) }
    ensures next { OnOk result (script.new.next ≤ script.old.next + 1) }
    ensures left { IfErr result (LeavesText settings.now (scene_of script.old realm.old.history) number text.now
        (K.taken output.old) (K.taken output.new) realm.new.history) }
    ensures kept { OnOk result (K.faults output.new ≡ K.faults output.old) }
    ensures cause { IfErr result (CountsWrite (K.faults output.old) (K.faults output.new)) }
    ensures open { IsOpen settings.now realm.new }
{
    lines_have_one_meaning();
    lines_have_few_bytes();
    let Some(line) = read_line(alloc, text, settings.zones)? else {
        return Err(refuse(output, out, number));
    };
    out.clear();
    if !script.play(alloc, settings, realm, line, out)? {
        return Err(refuse(output, out, number));
    }
    match write_all(output, out.as_slice()) {
        Ok(()) => Ok(()),
        Err(_) => Err(ScriptFault::WriteFault),
    }
}
