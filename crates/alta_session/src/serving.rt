// Lines in, replies out.
// A line that stands whole in a piece is answered where it stands; only one that spans pieces is copied. The next newline is found
// by `memchr`, which looks at many bytes at once.
ghost use Rattle.std.specs.Prelude.{◌≡◌, ◌+◌, ◌<◌, ◌≤◌, ◌^◌, ◌++◌, [], ◌∷◌, length, take, OnOk, IfOk, IfErr};
ghost use Rattle.alta_codec.specs.Bytes.{Lacks};
ghost use Rattle.alta_console.specs.Lines.{whole_from, begun_from, last_piece};
ghost use Rattle.alta_disk.specs.Disk.{DiskState};
ghost use Rattle.alta_session.specs.Answering.{CanAnswer};
ghost use Rattle.alta_session.specs.Ending.{Accounts, AccountsForInput, KeepsCounts};
ghost use Rattle.alta_session.specs.Fed.{Fed};
ghost use Rattle.alta_session.specs.Feeding.{AnswersLines};
ghost use Rattle.alta_machine.specs.declared.line.TheConstants.{LINE_LIMIT};
ghost use Rattle.alta_session.specs.Keeping.{clip};
ghost use Rattle.alta_session.specs.Outcomes.{Finishes, HasReason, RefusesDisk};
ghost use Rattle.alta_session.specs.Progress.{StopsWithin};
ghost use Rattle.alta_session.specs.Run.{Runs, Serves};

use crate::giving::give_all;
use crate::status::status_of;
use crate::{Session, Status};
use alta_console::Console;
use alta_disk::Disk;
use alta_machine::LINE_LIMIT;
use memchr::memchr;
use std::alloc::Global;

// A line of more bytes than this is refused, and no more of it is kept.
const KEPT: usize = LINE_LIMIT + 1;

// How many bytes a take asks for.
const PIECE: usize = 65_536;

// Answers a line, and gives the reply whole. After an error the run ends with that status.
pub(crate) fn answer<C: Console, D: Disk>(
    alloc: Global,
    session: &mut Session,
    console: &mut C,
    disk: &mut D,
    line: &[u8],
) -> Result<(), Status>
    requires one_line { Lacks 10 line.now }
    requires can { CanAnswer D.tells (D.state disk.old) session.old }
    ensures { AnswersLines D.tells C.told C.left C.take_faults C.give_faults console.old console.new (D.state disk.old)
        (D.state disk.new) session.old session.new (line.now ∷ []) result }
{
    let reply = match session.line(alloc, disk, line) {
        Ok(reply) => reply,
        Err(fault) => return Err(status_of(fault)),
    };
    match give_all(console, reply.as_str().as_bytes()) {
        Ok(()) => Ok(()),
        Err(_) => Err(Status::GiveFault),
    }
}

// Keeps more of a line that has begun, as far as it may still be answered.
fn keep(begun: &mut Vec<u8>, bytes: &[u8]) -> Result<(), Status>
    requires { length begun.old.items ≤ LINE_LIMIT + 1 }
    ensures kept { OnOk result (begun.new.items ≡ clip (begun.old.items ++ bytes.now)) }
    ensures memory { IfErr result (λ status. status ≡ Status.Memory) }
{
    let room = (KEPT - begun.len()).min(bytes.len());
    match begun.extend_from_slice(&bytes[..room]) {
        Ok(()) => Ok(()),
        Err(_) => Err(Status::Memory),
    }
}

// Answers a line that ends here, of which `begun` was kept and `rest` came last.
fn end_line<C: Console, D: Disk>(
    alloc: Global,
    session: &mut Session,
    console: &mut C,
    disk: &mut D,
    begun: &mut Vec<u8>,
    rest: &[u8],
) -> Result<(), Status>
    requires short { length begun.old.items ≤ LINE_LIMIT + 1 }
    requires begun_free { Lacks 10 begun.old.items }
    requires rest_free { Lacks 10 rest.now }
    requires can { CanAnswer D.tells (D.state disk.old) session.old }
    ensures answers { AnswersLines D.tells C.told C.left C.take_faults C.give_faults console.old console.new
        (D.state disk.old) (D.state disk.new) session.old session.new ((begun.old.items ++ rest.now) ∷ []) result }
    ensures none_begun { OnOk result (begun.new.items ≡ []) }
{
    if begun.is_empty() {
        return answer(alloc, session, console, disk, rest);
    }
    match keep(begun, rest) {
        Ok(()) => {}
        Err(status) => return Err(status),
    }
    match answer(alloc, session, console, disk, begun) {
        Ok(()) => {
            begun.clear();
            Ok(())
        }
        Err(status) => Err(status),
    }
}

// Goes on by the bytes up to the first newline, where a line ends and is answered, or by all where there is none.
// Answers by how many.
fn feed_line<C: Console, D: Disk>(
    alloc: Global,
    session: &mut Session,
    console: &mut C,
    disk: &mut D,
    begun: &mut Vec<u8>,
    bytes: &[u8],
) -> Result<usize, Status>
    requires some_bytes { 0 < length bytes.now }
    requires short { length begun.old.items ≤ LINE_LIMIT + 1 }
    requires free { Lacks 10 begun.old.items }
    requires can { CanAnswer D.tells (D.state disk.old) session.old }
    ensures within { IfOk result (λ n. n ≤ length bytes.now) }
    ensures more { IfOk result (λ n. 0 < n) }
    ensures ok { IfOk result (λ n. Fed D.tells (C.told console.old) (C.told console.new) (D.state disk.old)
        (D.state disk.new) session.old session.new (whole_from begun.old.items (take n bytes.now))) }
    ensures begun { IfOk result (λ n. clip begun.new.items ≡ clip (begun_from begun.old.items (take n bytes.now))) }
    ensures err { IfErr result (StopsWithin D.tells (C.told console.old) (C.told console.new) (D.state disk.old)
        (D.state disk.new) session.old (whole_from begun.old.items bytes.now)) }
    ensures short { OnOk result (length begun.new.items ≤ LINE_LIMIT + 1) }
    ensures free { OnOk result (Lacks 10 begun.new.items) }
    ensures can { OnOk result (CanAnswer D.tells (D.state disk.new) session.new) }
    ensures accounts { Accounts D.tells C.left C.take_faults C.give_faults console.old console.new (D.state disk.old)
        (D.state disk.new) result }
{
    match memchr(b'\n', bytes) {
        None => match keep(begun, bytes) {
            Ok(()) => Ok(bytes.len()),
            Err(status) => Err(status),
        },
        Some(n) => {
            session.look_ahead(&bytes[n + 1..]);
            match end_line(alloc, session, console, disk, begun, &bytes[..n]) {
                Ok(()) => Ok(n + 1),
                Err(status) => Err(status),
            }
        }
    }
}

// Answers the lines that end in a piece, each before the next. `begun` is kept of the line that has begun.
fn feed<C: Console, D: Disk>(
    alloc: Global,
    session: &mut Session,
    console: &mut C,
    disk: &mut D,
    begun: &mut Vec<u8>,
    piece: &[u8],
) -> Result<(), Status>
    requires short { length begun.old.items ≤ LINE_LIMIT + 1 }
    requires free { Lacks 10 begun.old.items }
    requires can { CanAnswer D.tells (D.state disk.old) session.old }
    ensures answers { AnswersLines D.tells C.told C.left C.take_faults C.give_faults console.old console.new
        (D.state disk.old) (D.state disk.new) session.old session.new (whole_from begun.old.items piece.now) result }
    ensures begun { OnOk result (clip begun.new.items ≡ clip (begun_from begun.old.items piece.now)) }
    ensures short { OnOk result (length begun.new.items ≤ LINE_LIMIT + 1) }
    ensures free { OnOk result (Lacks 10 begun.new.items) }
{
    let mut at = 0;
    'lines: while at < piece.len() {
        match feed_line(alloc, session, console, disk, begun, &piece[at..]) {
            Ok(n) => at += n,
            Err(status) => return Err(status),
        }
    }
    Ok(())
}

// Answers a last line that has begun, at the end of the input.
fn finish<C: Console, D: Disk>(
    alloc: Global,
    session: &mut Session,
    console: &mut C,
    disk: &mut D,
    begun: &[u8],
) -> Result<(), Status>
    requires free { Lacks 10 begun.now }
    requires can { CanAnswer D.tells (D.state disk.old) session.old }
    ensures { AnswersLines D.tells C.told C.left C.take_faults C.give_faults console.old console.new (D.state disk.old)
        (D.state disk.new) session.old session.new (last_piece begun.now) result }
{
    if begun.is_empty() {
        return Ok(());
    }
    answer(alloc, session, console, disk, begun)
}

// Answers the lines of a console, whose pieces are taken into a buffer.
fn answer_pieces<C: Console, D: Disk>(
    alloc: Global,
    session: &mut Session,
    console: &mut C,
    disk: &mut D,
    limit: u64,
    buffer: &mut [u8],
) -> Status
    requires room { 0 < length buffer.old }
    requires can { CanAnswer D.tells (D.state disk.old) session.old }
    ensures run { Runs D.tells limit (C.told console.old) (C.told console.new) (C.left console.old)
        (C.left console.new) (D.state disk.old) (D.state disk.new) session.old result }
    ensures accounts { AccountsForInput D.tells C.left C.take_faults C.give_faults console.old console.new
        (D.state disk.old) (D.state disk.new) result }
{
    let mut begun = Vec::new(alloc);
    let mut taken: u64 = 0;
    'takes: loop {
        let n = match console.take(buffer) {
            Ok(n) => n,
            Err(_) => return Status::TakeFault,
        };
        if n == 0 {
            match finish(alloc, session, console, disk, &begun) {
                Ok(()) => return Status::Done,
                Err(status) => return status,
            }
        }
        if n as u64 > limit - taken {
            return Status::TooLong;
        }
        taken += n as u64;
        match feed(alloc, session, console, disk, &mut begun, &buffer[..n]) {
            Ok(()) => {}
            Err(status) => return status,
        }
    }
}

// Answers the lines of a console.
fn answer_lines<C: Console, D: Disk>(
    alloc: Global,
    session: &mut Session,
    console: &mut C,
    disk: &mut D,
    limit: u64,
) -> Status
    requires can { CanAnswer D.tells (D.state disk.old) session.old }
    ensures run { Runs D.tells limit (C.told console.old) (C.told console.new) (C.left console.old)
        (C.left console.new) (D.state disk.old) (D.state disk.new) session.old result }
    ensures accounts { AccountsForInput D.tells C.left C.take_faults C.give_faults console.old console.new
        (D.state disk.old) (D.state disk.new) result }
{
    let mut buffer = match vec![in alloc; 0; PIECE] {
        Ok(buffer) => buffer,
        Err(_) => return Status::Memory,
    };
    answer_pieces(alloc, session, console, disk, limit, &mut buffer)
}

/// Opens the index of a disk, and answers the command lines of a console until its input ends. No more than `limit`
/// bytes of input are read, up to 2 to the 40th: the take that passes the limit is the last, and its piece is not looked
/// at.
///
/// Each line is answered before the next piece is taken, with the reply of the abstract machine. However the run
/// ends, what the disk may then hold stands for the state after a prefix of the lines that holds each line whose
/// reply was given whole, and at most one more; and so it did at each moment, for some prefix. Where the index opens and
/// stands for no state, since a list is broken, it may speak of the documents after such a prefix: it has their names, numbers
/// and lengths.
///
/// It ends with `Done` where the input was read to its end and every reply was given, `TooLong` where more bytes were
/// taken than the limit, `DiskFault`, `TakeFault` or `GiveFault` where such a call failed, `Memory` where there was no
/// memory, `NoRoot` where the disk has no index, `Damaged` where the index breaks a rule of the format, at opening with the first
/// place that shows it (after these two nothing was taken or given, and the disk holds what it held), or later with the first fault of
/// the lists that a line loads, or that of a level that it joins, and never where the disk stands for a state, and `Full` where what a
/// line writes to levels has no place below the limit of the disk: with the bytes that it needs and the greatest gap. Where every reply
/// was given, the levels, their extents, the deleted ends and the journal's entries are those that the work of the lines gives.
pub fn serve<C: Console, D: Disk>(
    alloc: Global,
    console: &mut C,
    disk: &mut D,
    limit: u64,
) -> Status
    requires { limit ≤ 2 ^ 40 }
    ensures run { Serves D.tells limit (C.told console.old) (C.told console.new) (C.left console.old)
        (C.left console.new) (D.state disk.old) (D.state disk.new) result }
    ensures finishes { Finishes D.tells C.left C.take_faults C.give_faults console.old console.new (D.state disk.old)
        (D.state disk.new) result }
    ensures refuses { RefusesDisk D.tells console.old console.new (D.state disk.old) (D.state disk.new) result }
    ensures reason { HasReason D.tells C.take_faults C.give_faults console.old console.new (D.state disk.old)
        (D.state disk.new) result }
    ensures counts { KeepsCounts C.take_faults C.give_faults console.old console.new (D.state disk.old)
        (D.state disk.new) }
{
    let mut session = match Session::start(alloc, disk) {
        Ok(session) => session,
        Err(fault) => return status_of(fault),
    };
    answer_lines(alloc, &mut session, console, disk, limit)
}
