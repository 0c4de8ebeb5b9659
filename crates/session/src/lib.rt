// Sessions (document 01, "Session"): open, offer, pour, copy out, drop, end. A session is changed where it lies.
#![tactic(auto)]

ghost use Rattle.std.specs.Prelude.{◌≡◌, List, ℕ, ◌*◌, ◌<◌, length};
ghost use Rattle.octets.specs.Octets.{over};
ghost use Rattle.answers.specs.Outputs.{Writes};
ghost use Rattle.form.specs.Agreed.{voice_for, default_form};
ghost use Rattle.frame.specs.Shape.{holding_shape};
ghost use Rattle.bundle.specs.Bundles.{same_bundles};
ghost use Rattle.bundle.specs.LaidOut.{laid};
ghost use Rattle.numbers.specs.Place.{decided};
ghost use Rattle.holding.specs.Group.{Spans, OfGroup, nothing, bundle_of, bundle_at};
ghost use Rattle.session.specs.Session.{vacant, never_opened, fresh, form_right, opened_for, last_right, group_right, is_open};
ghost use Rattle.session.specs.Standing.{whole, Stands, Fits, frames_of, offered_in, decided_as, begun_with, holding_also};
ghost use Rattle.session.specs.Standing.{before_of, placed_as, decision_of};
ghost use Rattle.session.specs.Session.{offered, pour_made, ended, after_pour, copied_out, dropped};

use answers::Refusal;
use bundle::Cells;
use form::{Form, Limits};
use holding::{Group, Holding};
use numbers::{Before, GroupNumbers, Verdict};

// A session: the source and the agreed form it was opened for, the group it holds (a holding of nothing if it holds none), and
// the numbers of the last group it poured, if it poured one.
#[derive(Clone, Copy)]
pub struct Session {
    pub open: bool,
    pub source: u32,
    pub form: Form,
    pub group: Holding,
    pub last: Option<GroupNumbers>,
}

// All of a session but the types and the bodies of its group, which lie in arrays that are lent beside it: so it is handed on
// without moving them. The numbers are those of the held group, zeros where none is; `last` are those of the last poured one.
#[derive(Clone, Copy)]
pub struct Standing {
    pub open: bool,
    pub source: u32,
    pub form: Form,
    pub group_source: u32,
    pub numbers: GroupNumbers,
    pub held: [bool; 8],
    pub last: Option<GroupNumbers>,
}

// What is decided of a packet that is not refused, before a frame of it is copied: it begins a group, after so many lost frames; it is
// put into the held group; or its packet is held already.
#[derive(Clone, Copy)]
pub enum Decision {
    Begins {
        numbers: GroupNumbers,
        n: u8,
        lost: usize,
    },
    PutIn {
        n: u8,
    },
    Again {
        n: u8,
    },
}

// A session that holds no group and remembers none.
#[tactic(auto, unfolding(crate::specs::Session::vacant))]
fn vacant(open: bool, source: u32, form: Form) -> Session
    ensures { result ≡ vacant holding_shape «open» source form }
{
    Session {
        open,
        source,
        form,
        group: holding::nothing(),
        last: None,
    }
}

// A session never opened.
#[tactic(auto, unfolding(crate::specs::Session::never_opened))]
pub fn never_opened() -> Session
    ensures { result ≡ never_opened holding_shape }
{
    vacant(false, 0, Form::HeaderFree)
}

// Whether the maxima of a form are in range.
#[tactic(auto, unfolding(crate::specs::Session::form_right))]
fn is_form_right(form: Form) -> bool
    ensures { result ≡ form_right form }
{
    match form {
        Form::HeaderFree => true,
        Form::Interleaved(limits) => Limits::open(limits.max_l, limits.max_b).is_ok(),
    }
}

// Opens a session for a source, in the agreed form: fresh, whatever it was before; 21 if a maximum is out of range, and then it is as
// it was.
#[tactic(auto, unfolding(crate::specs::Session::opened_for, crate::specs::Session::fresh, crate::specs::Session::vacant))]
pub fn open(session: &mut Session, source: u32, form: Form) -> Result<(), Refusal>
    ensures { record { answer = result; session = session.new } ≡ opened_for holding_shape session.old source form }
{
    if !is_form_right(form) {
        return Err(Refusal::NotApplicable);
    }
    *session = vacant(true, source, form);
    Ok(())
}

// Opens a session in the form that is agreed where none is named.
pub fn open_agreed(session: &mut Session, source: u32) -> Result<(), Refusal>
    ensures { record { answer = result; session = session.new } ≡ opened_for holding_shape session.old source default_form }
{
    open(session, source, Form::Interleaved(Limits::agreed()))
}

// ---- a session in parts: its types and bodies are changed in place

// All of a session but the types and the bodies of its group.
fn standing_of(session: &Session) -> Standing
    ensures { whole result session.now.group.marks session.now.group.room ≡ session.now }
{
    Standing {
        open: session.open,
        source: session.source,
        form: session.form,
        group_source: session.group.source,
        numbers: session.group.numbers,
        held: session.group.held,
        last: session.last,
    }
}

// Puts all but the types and the bodies of its group back.
fn put_back(session: &mut Session, standing: Standing)
    ensures { session.new ≡ whole standing session.old.group.marks session.old.group.room }
{
    session.open = standing.open;
    session.source = standing.source;
    session.form = standing.form;
    session.group.source = standing.group_source;
    session.group.numbers = standing.numbers;
    let held = standing.held;
    session.group.held = held;
    session.last = standing.last;
}

// Whether L and B of the last poured group are in range, if there is one.
#[tactic(auto, unfolding(crate::specs::Session::last_right))]
fn is_last_right(last: Option<GroupNumbers>) -> bool
    ensures { result ≡ last_right holding_shape last }
{
    match last {
        None => true,
        Some(numbers) => numbers.l <= 7 && 1 <= numbers.b && numbers.b <= 10,
    }
}

// Whether the held group keeps the rule of a holding, holds a packet and names the session's source, if there is one.
#[tactic(auto, unfolding(crate::specs::Session::group_right))]
fn is_group_right(standing: Standing, cells: Cells<'_>) -> bool
    requires { Spans holding_shape standing.held cells.marks.now cells.room.now }
    ensures { result ≡ group_right (voice_for standing.form) (whole standing cells.entry.marks.now cells.entry.room.now) }
{
    let group = Group {
        held: &standing.held,
        cells,
    };
    if holding::is_nothing_in(standing.group_source, standing.numbers, group) {
        return true;
    }
    holding::holds_packet_in(standing.numbers, group) && standing.group_source == standing.source
}

// internal: for a session whose types and bodies lie apart.
// Whether it counts as open.
#[tactic(auto, unfolding(crate::specs::Session::is_open))]
pub fn is_open_in(standing: Standing, cells: Cells<'_>) -> bool
    requires { Spans holding_shape standing.held cells.marks.now cells.room.now }
    ensures { result ≡ is_open (voice_for standing.form) (whole standing cells.entry.marks.now cells.entry.room.now) }
{
    standing.open
        && is_form_right(standing.form)
        && is_last_right(standing.last)
        && is_group_right(standing, cells)
}

// Whether a session counts as open.
pub fn is_open(session: &Session) -> bool
    ensures { result ≡ is_open (voice_for session.now.form) session.now }
{
    is_open_in(standing_of(session), session.group.parts().cells)
}

// The group that a packet comes after: the one that is held, the last one poured, or none. A held group has a frame to a packet.
#[tactic(auto, unfolding(crate::specs::Standing::before_of, crate::specs::Session::poured_before))]
fn group_before(standing: Standing) -> Before
    ensures { result ≡ before_of standing }
{
    if standing.numbers.b != 0 {
        return Before::Held(standing.numbers);
    }
    standing.last.map_or(Before::Nothing, Before::Poured)
}

// What is decided of a packet that was read: its numbers decide.
#[tactic(auto, unfolding(crate::specs::Standing::placed_as))]
fn decide_place(standing: Standing, numbers: GroupNumbers, n: u8) -> Result<Decision, Refusal>
    requires { n < 8 }
    ensures { result ≡ placed_as standing numbers n (decided (before_of standing) numbers) }
{
    match numbers::decide(group_before(standing), numbers)? {
        Verdict::Begins(lost) => Ok(Decision::Begins { numbers, n, lost }),
        Verdict::Belongs if standing.held[n as usize] => Ok(Decision::Again { n }),
        Verdict::Belongs => Ok(Decision::PutIn { n }),
    }
}

// internal: for a session that is known to be open.
// What is decided of a packet: its source, its payload and its place are judged, and nothing is copied.
#[tactic(auto, unfolding(crate::specs::Standing::decision_of, crate::specs::Standing::read_decision, payload::specs::Shown::contents_of))]
pub fn decide(
    standing: Standing,
    source: u32,
    sequence: u16,
    timestamp: u32,
    payload: &[u8],
) -> Result<Decision, Refusal>
    ensures { result ≡ decision_of standing source sequence timestamp payload.now }
{
    if source != standing.source {
        return Err(Refusal::AnotherSource);
    }
    let read = payload::read(standing.form, payload)?;
    let numbers = GroupNumbers {
        sequence: numbers::base_sequence(sequence, read.n),
        timestamp: numbers::base_timestamp(timestamp, read.n),
        l: read.l,
        b: read.b,
    };
    decide_place(standing, numbers, read.n)
}

// internal: for a packet that begins a group in a session that holds none.
// All but its types and bodies, with a group begun of which packet n alone is held.
#[tactic(auto, unfolding(crate::specs::Standing::begun_with))]
pub fn begin_group(standing: Standing, numbers: GroupNumbers, n: u8) -> Standing
    requires { n < 8 }
    ensures { result ≡ begun_with standing numbers n }
{
    let mut held = [false; 8];
    held[n as usize] = true;
    Standing {
        group_source: standing.source,
        numbers,
        held,
        ..standing
    }
}

// internal: for a packet that is put into the held group.
// All but its types and bodies, with packet n held too.
#[tactic(auto, unfolding(crate::specs::Standing::holding_also))]
pub fn hold_packet(standing: Standing, n: u8) -> Standing
    requires { n < 8 }
    ensures { result ≡ holding_also standing n }
{
    let mut next = standing;
    next.held[n as usize] = true;
    next
}

// Lays the b frames of a payload out as packet n, in place.
fn lay_in(form: Form, payload: &[u8], b: u8, n: u8, marks: &mut [u8], room: &mut [u8])
    requires { (b ≡ length (frames_of form payload.now))
        × (n < 8)
        × (length marks.old ≡ 80)
        × (length room.old ≡ 1760) }
    ensures { (marks.new ≡ over marks.old (10 * n) (laid holding_shape (frames_of form payload.now)).marks)
        × (room.new ≡ over room.old (220 * n) (laid holding_shape (frames_of form payload.now)).room) }
{
    let at = 10 * n as usize;
    let from = 220 * n as usize;
    payload::lay_frames(
        form,
        payload,
        b,
        &mut marks[at..at + 10],
        &mut room[from..from + 220],
    );
}

// Whether packet n that is held has the frames of a payload.
fn has_frames(form: Form, payload: &[u8], n: u8, cells: Cells<'_>) -> bool
    requires { (n < 8) × OfGroup holding_shape cells }
    ensures { result
        ≡ same_bundles (bundle_of holding_shape cells.entry.marks.now cells.entry.room.now n) (laid holding_shape (frames_of form payload.now)) }
{
    holding::same_packet_in(cells, n as usize, payload::lay_out(form, payload))
}

// A packet that is held already: accepted if it has the same frames, else 14.
#[tactic(auto, unfolding(crate::specs::Standing::decided_as, crate::specs::Session::accept, crate::specs::Session::refuse))]
fn again(form: Form, payload: &[u8], n: u8, cells: Cells<'_>) -> Result<usize, Refusal>
    requires { (n < 8) × OfGroup holding_shape cells }
    ensures { (s : Session) → bundle_at holding_shape s.group n ≡ bundle_of holding_shape cells.entry.marks.now cells.entry.room.now n
        → record { answer = result; session = s } ≡ decided_as s (frames_of form payload.now) (Ok (Decision.Again n)) }
{
    if has_frames(form, payload, n, cells) {
        Ok(0)
    } else {
        Err(Refusal::PacketDiffers)
    }
}

// Types and bodies that are changed in place are handed on as two slices: a struct of two mutable borrows would be taken apart and put
// together again at each call.

// internal: for a session that is known to be open, and what was decided of the packet there.
// What becomes of the packet: its frames are laid out in place, or nothing changes.
#[tactic(auto, unfolding(crate::specs::Standing::decided_as, crate::specs::Session::refuse))]
pub fn take(
    standing: &mut Standing,
    decision: Result<Decision, Refusal>,
    payload: &[u8],
    marks: &mut [u8],
    room: &mut [u8],
) -> Result<usize, Refusal>
    requires { Stands standing.old marks.old room.old × Fits standing.old (frames_of standing.old.form payload.now) decision }
    ensures { offered_in result standing.new marks.new room.new
        ≡ decided_as (whole standing.old marks.old room.old) (frames_of standing.old.form payload.now) decision }
{
    match decision? {
        Decision::Begins { numbers, n, lost } => {
            lay_in(standing.form, payload, numbers.b, n, marks, room);
            *standing = begin_group(*standing, numbers, n);
            Ok(lost)
        }
        Decision::PutIn { n } => {
            lay_in(standing.form, payload, standing.numbers.b, n, marks, room);
            *standing = hold_packet(*standing, n);
            Ok(0)
        }
        Decision::Again { n } => again(standing.form, payload, n, Cells { marks, room }),
    }
}

// internal: for a session that is known to be open and holds a group.
// All but its types and bodies, after its group was poured: its numbers are remembered.
#[tactic(auto, unfolding(crate::specs::Session::ended, holding::specs::Group::nothing, holding::specs::Group::begun))]
pub fn end_group(standing: Standing) -> Standing
    ensures { (ms rs : List ℕ) → whole result (nothing holding_shape).marks (nothing holding_shape).room ≡ ended holding_shape (whole standing ms rs) }
{
    Standing {
        group_source: 0,
        numbers: GroupNumbers::default(),
        held: [false; 8],
        last: Some(standing.numbers),
        ..standing
    }
}

// internal: beside a session that was just opened.
// All of a session opened for a source in a form, but its types and bodies.
#[tactic(auto, unfolding(crate::specs::Session::fresh, crate::specs::Session::vacant, holding::specs::Group::nothing, holding::specs::Group::begun))]
pub fn fresh(source: u32, form: Form) -> Standing
    ensures { whole result (nothing holding_shape).marks (nothing holding_shape).room ≡ fresh holding_shape source form }
{
    Standing {
        open: true,
        source,
        form,
        group_source: 0,
        numbers: GroupNumbers::default(),
        held: [false; 8],
        last: None,
    }
}

// The numbers of a packet and its payload stand one by one, as the C call hands them on.
// Offers a packet: accepted, with the lost frames before it; or refused, and the session is as it was.
pub fn offer(
    session: &mut Session,
    source: u32,
    sequence: u16,
    timestamp: u32,
    payload: &[u8],
) -> Result<usize, Refusal>
    ensures { record { answer = result; session = session.new }
        ≡ offered (voice_for session.old.form) session.old source sequence timestamp payload.now }
{
    if !is_open(session) {
        return Err(Refusal::NotApplicable);
    }
    let mut standing = standing_of(session);
    let decision = decide(standing, source, sequence, timestamp, payload);
    let group = &mut session.group;
    let answer = take(
        &mut standing,
        decision,
        payload,
        &mut group.marks,
        &mut group.room,
    );
    put_back(session, standing);
    answer
}

// The session after its group was poured.
#[tactic(auto, unfolding(crate::specs::Session::ended))]
fn forget_group(session: &mut Session)
    ensures { session.new ≡ ended holding_shape session.old }
{
    session.last = Some(session.group.numbers);
    session.group = holding::nothing();
}

// Pours the held group into out and ends it; or refused, and session and output are as they were.
#[tactic(auto, unfolding(crate::specs::Session::pour_made, crate::specs::Session::after_pour, answers::specs::Outputs::written_of, answers::specs::Outputs::out_after))]
pub fn pour(session: &mut Session, out: &mut [u8]) -> Result<usize, Refusal>
    ensures { Writes (pour_made (voice_for session.old.form) session.old) out.old result out.new
        × (session.new ≡ after_pour holding_shape session.old result) }
{
    if !is_open(session) || session.group.numbers.b == 0 {
        return Err(Refusal::NotApplicable);
    }
    let count = pouring::pour_held(session.group, out)?;
    forget_group(session);
    Ok(count)
}

// The held group, copied out; 21 where the session is not open or holds none.
#[tactic(auto, unfolding(crate::specs::Session::copied, crate::specs::Session::no_copy))]
pub fn copy_out(session: &Session) -> Result<Holding, Refusal>
    ensures { result ≡ copied_out (voice_for session.now.form) session.now }
{
    if !is_open(session) || holding::is_nothing(session.group) {
        return Err(Refusal::NotApplicable);
    }
    Ok(session.group)
}

// Ends the held group as pouring does, and writes nothing; 21 where the session is not open or holds none.
#[tactic(auto, unfolding(crate::specs::Session::dropped, crate::specs::Session::not_dropped))]
pub fn drop_group(session: &mut Session) -> Result<(), Refusal>
    ensures { record { answer = result; session = session.new } ≡ dropped (voice_for session.old.form) session.old }
{
    if !is_open(session) || holding::is_nothing(session.group) {
        return Err(Refusal::NotApplicable);
    }
    forget_group(session);
    Ok(())
}

// Ends a session: nothing of it is left. Never refused.
#[tactic(auto, unfolding(crate::specs::Session::never_opened, crate::specs::Session::vacant))]
pub fn end(session: &mut Session)
    ensures { session.new ≡ never_opened holding_shape }
{
    *session = never_opened();
}
