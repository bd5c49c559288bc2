// A generated run over a new index, and the report on it.
ghost use Rattle.std.specs.Prelude.{◌≡◌, ◌≤◌, ◌∷◌, [], ℕ, OnOk, IfSome, IfNone};
ghost use Rattle.alta_codec.specs.Faults.{Rose};
ghost use Rattle.alta_codec.specs.Bytes.{Lacks};
ghost use Rattle.alta_disk.specs.Disk.{DiskState};
ghost use Rattle.alta_make.specs.Script.{script, report as asked};
ghost use Rattle.alta_session.specs.Answering.{CanAnswer};
ghost use Rattle.alta_session.specs.Demo.{AsksDemo, Obeys, Demonstrates};
ghost use Rattle.alta_session.specs.Ending.{AccountsSilently};
ghost use Rattle.alta_session.specs.Feeding.{AnswersLines};

use crate::serving::answer;
use crate::status::status_of;
use crate::top::init;
use crate::{Session, Status};
use alta_codec::{Text, read_count};
use alta_console::Console;
use alta_disk::Disk;
use alta_make::{report_line, script_line};
use std::alloc::Global;

// Over how many documents the words ask for a demo, if they do.
pub(crate) fn demo_size(words: &[Text]) -> Option<u64>
    ensures asked { IfSome result (AsksDemo words.now) }
    ensures other { IfNone result ((n : ℕ) → AsksDemo words.now n → ⊥) }
{
    match words {
        [word, size] => {
            if word.as_str() == "demo" {
                read_count(size.as_str().as_bytes(), 6, 100_000)
            } else {
                None
            }
        }
        _ => None,
    }
}

// Does what a line asks for, without giving its reply. After an error the run ends with that status.
fn obey<D: Disk>(
    alloc: Global,
    session: &mut Session,
    disk: &mut D,
    line: &[u8],
) -> Result<(), Status>
    requires one_line { Lacks 10 line.now }
    requires can { CanAnswer D.tells (D.state disk.old) session.old }
    ensures feeds { Obeys D.tells (D.state disk.old) (D.state disk.new) session.old session.new (line.now ∷ []) result }
    ensures can { OnOk result (CanAnswer D.tells (D.state disk.new) session.new) }
    ensures accounts { AccountsSilently D.tells (D.state disk.old) (D.state disk.new) result }
{
    let _reply = match session.line(alloc, disk, line) {
        Ok(reply) => reply,
        Err(fault) => return Err(status_of(fault)),
    };
    Ok(())
}

// Does what the lines of a generated run over `n` documents ask for.
fn obey_script<D: Disk>(
    alloc: Global,
    session: &mut Session,
    disk: &mut D,
    n: u64,
) -> Result<(), Status>
    requires few { n ≤ 100000 }
    requires can { CanAnswer D.tells (D.state disk.old) session.old }
    ensures feeds { Obeys D.tells (D.state disk.old) (D.state disk.new) session.old session.new (script n) result }
    ensures can { OnOk result (CanAnswer D.tells (D.state disk.new) session.new) }
    ensures accounts { AccountsSilently D.tells (D.state disk.old) (D.state disk.new) result }
{
    let mut index = 0;
    'lines: loop {
        let line = match script_line(alloc, n, index) {
            Ok(Some(line)) => line,
            Ok(None) => return Ok(()),
            Err(_) => return Err(Status::Memory),
        };
        match obey(alloc, session, disk, line.as_str().as_bytes()) {
            Ok(()) => index += 1,
            Err(status) => return Err(status),
        }
    }
}

// Answers the lines of the report, and gives their replies.
fn report<C: Console, D: Disk>(
    alloc: Global,
    session: &mut Session,
    console: &mut C,
    disk: &mut D,
) -> Result<(), Status>
    requires { CanAnswer D.tells (D.state disk.old) session.old }
    ensures { AnswersLines D.tells C.told C.left C.take_faults C.give_faults console.old console.new (D.state disk.old)
        (D.state disk.new) session.old session.new asked result }
{
    let mut index = 0;
    'lines: loop {
        let line = match report_line(index) {
            Some(line) => line,
            None => return Ok(()),
        };
        match answer(alloc, session, console, disk, line.as_bytes()) {
            Ok(()) => index += 1,
            Err(status) => return Err(status),
        }
    }
}

// Makes an index, does what the lines of a generated run over `n` documents ask for, and gives the replies to the report.
pub(crate) fn demo<C: Console, D: Disk>(
    alloc: Global,
    n: u64,
    console: &mut C,
    disk: &mut D,
) -> Status
    requires { n ≤ 100000 }
    ensures demo { Demonstrates D.tells (script n) asked (C.told console.old) (C.told console.new) (D.state disk.old)
        (D.state disk.new) result }
    ensures input_kept { C.left console.new ≡ C.left console.old }
    ensures give_fault { result ≡ Status.GiveFault → Rose (C.give_faults console.old) (C.give_faults console.new) }
    ensures disk_fault { result ≡ Status.DiskFault → Rose (D.state disk.old).faults (D.state disk.new).faults }
{
    match init(disk) {
        Status::Done => {}
        status => return status,
    }
    let mut session = match Session::start(alloc, disk) {
        Ok(session) => session,
        Err(fault) => return status_of(fault),
    };
    match obey_script(alloc, &mut session, disk, n) {
        Ok(()) => {}
        Err(status) => return status,
    }
    match report(alloc, &mut session, console, disk) {
        Ok(()) => Status::Done,
        Err(status) => status,
    }
}
