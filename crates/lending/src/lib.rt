// Sessions and holdings in 2,304 octets that a host lends (LAYOUT.md has the layout), and the calls of document 01, "Session",
// on them. All of a session never opened is zero, and so is all of one that was ended.
#![tactic(auto)]

ghost use Rattle.std.specs.Prelude.{◌≡◌, Bool, List, [], ◌∷◌, map, ℕ, ◌+◌, ◌≤◌, length, take, drop};
ghost use Rattle.answers.specs.Outputs.{Writes};
ghost use Rattle.octets.specs.Octets.{over, shifted};
ghost use Rattle.lending.specs.Calls.{open_answer, open_octets, offer_answer, offer_octets, pour_of, pour_octets, copy_answer};
ghost use Rattle.lending.specs.Calls.{copy_octets, end_answer, end_octets, join_answer, join_octets, pour_held, room_in, lay_if};
ghost use Rattle.lending.specs.Calls.{drop_answer, drop_octets, read_held, lost_of};
ghost use Rattle.frame.specs.Shape.{holding_shape};
ghost use Rattle.holding.specs.Group.{holding_of, nothing};
ghost use Rattle.session.specs.Session.{is_open};
ghost use Rattle.session.specs.Standing.{whole, Stands, Fits, frames_of, offered_in, decided_as};
ghost use Rattle.lending.specs.Laid.{session_voice, holding_voice, flag_octet, is_set, number_octets, holding_octets, holding_at, is_laid};
ghost use Rattle.lending.specs.Laid.{holding_in, holding_laid, form_octets, form_at, last_octets, session_head, session_laid};
ghost use Rattle.lending.specs.Laid.{numbers_at, last_at, session_at, is_session, session_in};
ghost use Rattle.lending.specs.Parts.{type_octets, group_octets, front_octets, types_at, bodies_at, has_group};

use answers::Refusal;
use bundle::Cells;
use form::{Form, Limits};
use holding::{Described, Holding};
use numbers::GroupNumbers;
use session::{Decision, Standing};
use std::array;

// The octets of a session, and of a holding.
pub const OCTETS: usize = 2304;

// The type of an erasure.
const ERASURE: u8 = 0x0E;

// A flag as an octet: 1 or 0.
fn flag(set: bool) -> u8
    ensures { result ≡ flag_octet set }
{
    u8::from(set)
}

// Lays a flag out.
fn put_flag(out: &mut [u8], at: usize, set: bool)
    requires { at + 1 ≤ length out.old }
    ensures { out.new ≡ over out.old at (flag_octet set ∷ []) }
{
    out[at] = flag(set);
}

// Lays two octets out, one behind the other.
fn put_pair(out: &mut [u8], at: usize, x: u8, y: u8)
    requires { at + 2 ≤ length out.old }
    ensures { out.new ≡ over out.old at (x ∷ y ∷ []) }
{
    out[at] = x;
    out[at + 1] = y;
}

// ---- holdings

// Lays flags out from index at on.
fn put_flags(out: &mut [u8], at: usize, flags: &[bool])
    requires { at + length flags.now ≤ length out.old }
    ensures { out.new ≡ over out.old at (map flag_octet flags.now) }
{
    for (i, set) in flags.iter().enumerate() {
        out[at + i] = flag(*set);
    }
}

// Lays out the numbers of a group.
#[tactic(auto, unfolding(crate::specs::Laid::number_octets))]
fn put_numbers(out: &mut [u8], at: usize, source: u32, numbers: GroupNumbers)
    requires { at + 16 ≤ length out.old }
    ensures { (hs : List Bool) (ms rs : List ℕ) → out.new
        ≡ over out.old at (number_octets (holding_of source numbers hs ms rs)) }
{
    octets::put_four(out, at, source);
    octets::put_two(out, at + 4, numbers.sequence);
    octets::put_four(out, at + 6, numbers.timestamp);
    put_pair(out, at + 10, numbers.l, numbers.b);
    octets::fill(out, at + 12, 4, 0);
}

// Lays out which packets are held, and the types.
fn put_types(out: &mut [u8], at: usize, held: &[bool], marks: &[u8])
    requires { (at + 96 ≤ length out.old) × (length held.now ≡ 8) × (length marks.now ≡ 80) }
    ensures { out.new ≡ over out.old at (type_octets held.now marks.now) }
{
    put_flags(out, at, held);
    octets::fill(out, at + 8, 8, 0);
    octets::copy_shifted(out, at + 16, marks, 242);
}

// Lays out all of a holding but its bodies.
#[tactic(auto, unfolding(crate::specs::Parts::group_octets))]
fn put_group(
    out: &mut [u8],
    at: usize,
    source: u32,
    numbers: GroupNumbers,
    held: &[bool],
    marks: &[u8],
)
    requires { (at + 112 ≤ length out.old) × (length held.now ≡ 8) × (length marks.now ≡ 80) }
    ensures { (rs : List ℕ) → out.new
        ≡ over out.old at (group_octets (holding_of source numbers held.now marks.now rs)) }
{
    put_numbers(out, at, source, numbers);
    put_types(out, at + 16, held, marks);
}

// Lays a holding out from index at on.
fn put_holding(out: &mut [u8], at: usize, h: Holding)
    requires { at + 1872 ≤ length out.old }
    ensures { out.new ≡ over out.old at (holding_octets h) }
{
    put_group(out, at, h.source, h.numbers, &h.held, &h.marks);
    octets::copy(out, at + 112, &h.room);
}

// Eight flags.
fn flags_at(lent: &[u8], at: usize) -> [bool; 8]
    requires { at + 8 ≤ length lent.now }
    ensures { result ≡ map is_set (take 8 (drop at lent.now)) }
{
    array::from_fn(|i| lent[at + i] == 1)
}

// The types that lie from a place on: each octet and 14, modulo 256.
fn marks_at(lent: &[u8], at: usize) -> [u8; 80]
    requires { at + 80 ≤ length lent.now }
    ensures { result ≡ map (shifted 14) (take 80 (drop at lent.now)) }
{
    let mut marks = [0u8; 80];
    octets::copy_shifted(&mut marks, 0, &lent[at..at + 80], 14);
    marks
}

// The bodies that lie from a place on.
fn room_at(lent: &[u8], at: usize) -> [u8; 1760]
    requires { at + 1760 ≤ length lent.now }
    ensures { result ≡ take 1760 (drop at lent.now) }
{
    let mut room = [0u8; 1760];
    octets::copy(&mut room, 0, &lent[at..at + 1760]);
    room
}

// The numbers of a group that are laid out from index at on.
#[tactic(auto, unfolding(crate::specs::Laid::numbers_at))]
fn numbers_at(lent: &[u8], at: usize) -> GroupNumbers
    requires { at + 8 ≤ length lent.now }
    ensures { result ≡ numbers_at lent.now at }
{
    GroupNumbers {
        sequence: octets::two(lent, at),
        timestamp: octets::four(lent, at + 2),
        l: lent[at + 6],
        b: lent[at + 7],
    }
}

// The holding that is laid out from index at on.
#[tactic(auto, unfolding(crate::specs::Laid::holding_at))]
fn holding_at(lent: &[u8], at: usize) -> Holding
    requires { at + 1872 ≤ length lent.now }
    ensures { result ≡ holding_at lent.now at }
{
    Holding {
        source: octets::four(lent, at),
        numbers: numbers_at(lent, at + 4),
        held: flags_at(lent, at + 16),
        marks: marks_at(lent, at + 32),
        room: room_at(lent, at + 112),
    }
}

// Lays a holding out in all 2,304 octets.
fn lay_holding(to: &mut [u8], h: Holding)
    requires { 2304 ≤ length to.old }
    ensures { to.new ≡ over to.old 0 (holding_laid h) }
{
    put_holding(to, 0, h);
    octets::fill(to, 1872, 432, 0);
}

// Whether the octets are as a holding is laid out.
#[tactic(auto, unfolding(crate::specs::Laid::is_laid, crate::specs::Laid::is_long))]
fn is_laid_holding(lent: &[u8], h: Holding) -> bool
    requires { 2304 ≤ length lent.now }
    ensures { result ≡ is_laid lent.now (holding_laid h) }
{
    let mut again = [0u8; 2304];
    lay_holding(&mut again, h);
    octets::same(&again, &lent[0..OCTETS])
}

// The holding in lent octets; one of nothing where they are none.
#[tactic(auto, unfolding(crate::specs::Laid::holding_in, crate::specs::Laid::is_holding, crate::specs::Laid::is_laid, crate::specs::Laid::is_long))]
fn holding_in(lent: &[u8]) -> Holding
    ensures { result ≡ holding_in lent.now }
{
    if lent.len() < OCTETS {
        return holding::nothing();
    }
    let h = holding_at(lent, 0);
    if is_laid_holding(lent, h) {
        h
    } else {
        holding::nothing()
    }
}

// Gives a host a holding; 15 where its octets are too few.
#[tactic(auto, unfolding(crate::specs::Calls::room_in, crate::specs::Calls::lay_if, crate::specs::Laid::is_long))]
fn give_holding(to: &mut [u8], h: Holding) -> Result<(), Refusal>
    ensures { (result ≡ room_in to.old) × (to.new ≡ lay_if (room_in to.old) to.old (holding_laid h)) }
{
    if to.len() < OCTETS {
        return Err(Refusal::NoRoom);
    }
    lay_holding(to, h);
    Ok(())
}

// ---- sessions

// Lays a form out from index at on.
#[tactic(auto, unfolding(crate::specs::Laid::form_octets))]
fn put_form(out: &mut [u8], at: usize, form: Form)
    requires { at + 3 ≤ length out.old }
    ensures { out.new ≡ over out.old at (form_octets form) }
{
    match form {
        Form::HeaderFree => octets::fill(out, at, 3, 0),
        Form::Interleaved(limits) => {
            out[at] = 1;
            out[at + 1] = limits.max_l;
            out[at + 2] = limits.max_b;
        }
    }
}

// Lays out the numbers of the last poured group, or zeros where none was.
#[tactic(auto, unfolding(crate::specs::Laid::last_octets))]
fn put_last(out: &mut [u8], last: Option<GroupNumbers>)
    requires { 20 ≤ length out.old }
    ensures { out.new ≡ over out.old 9 (last_octets last) }
{
    match last {
        None => octets::fill(out, 9, 11, 0),
        Some(numbers) => {
            octets::put_two(out, 9, numbers.sequence);
            put_pair(out, 11, numbers.l, numbers.b);
            octets::fill(out, 13, 3, 0);
            octets::put_four(out, 16, numbers.timestamp);
        }
    }
}

// Lays out all of a session but its group.
#[tactic(auto, unfolding(crate::specs::Laid::session_head))]
fn put_head(out: &mut [u8], standing: Standing)
    requires { 32 ≤ length out.old }
    ensures { (ms rs : List ℕ) → out.new ≡ over out.old 0 (session_head (whole standing ms rs)) }
{
    put_flag(out, 0, standing.open);
    put_form(out, 1, standing.form);
    octets::put_four(out, 4, standing.source);
    put_flag(out, 8, standing.last.is_some());
    put_last(out, standing.last);
    octets::fill(out, 20, 12, 0);
}

// Lays out all of a session that lies before the bodies of its group.
#[tactic(auto, unfolding(crate::specs::Parts::front_octets))]
fn put_front(out: &mut [u8], standing: Standing, marks: &[u8])
    requires { (144 ≤ length out.old) × (length marks.now ≡ 80) }
    ensures { (rs : List ℕ) → out.new ≡ over out.old 0 (front_octets (whole standing marks.now rs)) }
{
    put_head(out, standing);
    put_group(
        out,
        32,
        standing.group_source,
        standing.numbers,
        &standing.held,
        marks,
    );
}

// Lays a session out in all 2,304 octets, around the bodies of its group, which lie there.
fn put_session(out: &mut [u8], standing: Standing, marks: &[u8])
    requires { (2304 ≤ length out.old) × (length marks.now ≡ 80) }
    ensures { (out.new ≡ over out.old 0 (session_laid (whole standing marks.now (bodies_at out.old))))
        × (length (session_laid (whole standing marks.now (bodies_at out.old))) ≡ 2304) }
{
    put_front(out, standing, marks);
    octets::fill(out, 1904, 400, 0);
}

// Lays a session out that holds no group.
fn put_vacant(out: &mut [u8], standing: Standing)
    requires { 2304 ≤ length out.old }
    ensures { out.new ≡ over out.old 0 (session_laid (whole standing (nothing holding_shape).marks (nothing holding_shape).room)) }
{
    octets::fill(out, 144, 1760, 0);
    let marks = [ERASURE; 80];
    put_session(out, standing, &marks);
}

// The form that is laid out from index at on.
#[tactic(auto, unfolding(crate::specs::Laid::form_at))]
fn form_at(lent: &[u8], at: usize) -> Form
    requires { at + 3 ≤ length lent.now }
    ensures { result ≡ form_at lent.now at }
{
    if lent[at] == 1 {
        let max_l = lent[at + 1];
        let max_b = lent[at + 2];
        return Form::Interleaved(Limits { max_l, max_b });
    }
    Form::HeaderFree
}

// The numbers of the last poured group, if the octets say that there is one.
#[tactic(auto, unfolding(crate::specs::Laid::last_at))]
fn last_at(lent: &[u8]) -> Option<GroupNumbers>
    requires { 20 ≤ length lent.now }
    ensures { result ≡ last_at lent.now }
{
    if lent[8] != 1 {
        return None;
    }
    Some(GroupNumbers {
        sequence: octets::two(lent, 9),
        timestamp: octets::four(lent, 16),
        l: lent[11],
        b: lent[12],
    })
}

// All of the session that is laid out, but the types and the bodies of its group.
#[tactic(auto, unfolding(crate::specs::Laid::session_at, crate::specs::Laid::holding_at, crate::specs::Laid::numbers_at))]
fn standing_at(lent: &[u8]) -> Standing
    requires { 2304 ≤ length lent.now }
    ensures { whole result (types_at lent.now) (bodies_at lent.now) ≡ session_at lent.now }
{
    Standing {
        open: lent[0] == 1,
        source: octets::four(lent, 4),
        form: form_at(lent, 1),
        group_source: octets::four(lent, 32),
        numbers: numbers_at(lent, 36),
        held: flags_at(lent, 48),
        last: last_at(lent),
    }
}

// Whether the octets are as a session is laid out. Of the bodies it is so whatever they are.
#[tactic(auto, unfolding(crate::specs::Laid::is_session, crate::specs::Laid::is_laid, crate::specs::Laid::is_long))]
fn is_session(from: &[u8]) -> bool
    ensures { result ≡ is_session from.now }
{
    if from.len() < OCTETS {
        return false;
    }
    let standing = standing_at(from);
    let marks = marks_at(from, 64);
    let mut again = [0u8; 144];
    put_front(&mut again, standing, &marks);
    octets::same(&again, &from[0..144]) && octets::zeros(&from[1904..OCTETS])
}

// The types of a session's group, and its bodies, which lie in the session's octets.
fn cells_at<'a>(lent: &'a [u8], marks: &'a [u8]) -> Cells<'a>
    requires { 2304 ≤ length lent.now }
    ensures { (result.marks.now ≡ marks.now) × (result.room.now ≡ bodies_at lent.now) }
{
    Cells {
        marks,
        room: &lent[144..1904],
    }
}

// Whether the session in lent octets counts as open. One that is too short, or is none, does not.
#[tactic(auto, using(crate::proofs::PartsLaws::lengths))]
fn is_open(lent: &[u8]) -> bool
    ensures { result ≡ is_open (session_voice lent.now) (session_in lent.now) }
{
    if !is_session(lent) {
        return false;
    }
    let standing = standing_at(lent);
    let marks = marks_at(lent, 64);
    session::is_open_in(standing, cells_at(lent, &marks))
}

// Whether the session in lent octets counts as open and holds a group.
#[tactic(auto, unfolding(crate::specs::Parts::has_group))]
fn has_group(lent: &[u8]) -> bool
    ensures { result ≡ has_group (session_voice lent.now) (session_in lent.now) }
{
    is_open(lent) && lent[43] != 0
}

// What becomes of a packet where an open session lies: bodies are laid out there, and types beside it.
fn take_packet(
    session: &mut [u8],
    standing: &mut Standing,
    decision: Result<Decision, Refusal>,
    payload: &[u8],
    marks: &mut [u8],
) -> Result<usize, Refusal>
    requires { (2304 ≤ length session.old)
        × Stands standing.old marks.old (bodies_at session.old)
        × Fits standing.old (frames_of standing.old.form payload.now) decision }
    ensures { (offered_in result standing.new marks.new (bodies_at session.new)
        ≡ decided_as (whole standing.old marks.old (bodies_at session.old)) (frames_of standing.old.form payload.now) decision)
        × (session.new ≡ over session.old 144 (bodies_at session.new)) }
{
    session::take(standing, decision, payload, marks, &mut session[144..1904])
}

// ---- the calls

// Opens a session for a source, in the agreed form, whatever the octets were before.
#[tactic(auto, unfolding(crate::specs::Calls::open_answer, crate::specs::Calls::open_octets, crate::specs::Calls::then_room, crate::specs::Calls::room_in, crate::specs::Calls::lay_if, crate::specs::Laid::is_long))]
pub fn open(session: &mut [u8], source: u32, form: Form) -> Result<(), Refusal>
    ensures { (result ≡ open_answer session.old source form)
        × (session.new ≡ open_octets session.old source form) }
{
    let mut opened = session::never_opened();
    session::open(&mut opened, source, form)?;
    if session.len() < OCTETS {
        return Err(Refusal::NoRoom);
    }
    put_vacant(session, session::fresh(source, form));
    Ok(())
}

// Offers a packet: its frames are laid out where the session lies.
#[tactic(auto, unfolding(crate::specs::Calls::offer_answer, crate::specs::Calls::offer_octets, crate::specs::Calls::lay_if))]
pub fn offer(
    session: &mut [u8],
    source: u32,
    sequence: u16,
    timestamp: u32,
    payload: &[u8],
) -> Result<usize, Refusal>
    ensures { (result ≡ offer_answer (session_voice session.old) session.old source sequence timestamp payload.now)
        × (session.new ≡ offer_octets (session_voice session.old) session.old source sequence timestamp payload.now) }
{
    if !is_open(session) {
        return Err(Refusal::NotApplicable);
    }
    let mut standing = standing_at(session);
    let mut marks = marks_at(session, 64);
    let decision = session::decide(standing, source, sequence, timestamp, payload);
    let lost = take_packet(session, &mut standing, decision, payload, &mut marks)?;
    put_session(session, standing, &marks);
    Ok(lost)
}

// Pours the held group into out and ends it.
#[tactic(auto, unfolding(crate::specs::Calls::pour_of, crate::specs::Calls::pour_octets, crate::specs::Calls::lay_if))]
pub fn pour(session: &mut [u8], out: &mut [u8]) -> Result<usize, Refusal>
    ensures { Writes (pour_of (session_voice session.old) session.old) out.old result out.new
        × (session.new ≡ pour_octets session.old result) }
{
    if !has_group(session) {
        return Err(Refusal::NotApplicable);
    }
    let standing = standing_at(session);
    let marks = marks_at(session, 64);
    let count = pouring::pour_held_in(standing.numbers, cells_at(session, &marks), out)?;
    put_vacant(session, session::end_group(standing));
    Ok(count)
}

// Copies the held group out: in a session it lies as in a holding.
#[tactic(auto, unfolding(crate::specs::Calls::copy_answer, crate::specs::Calls::copy_octets, crate::specs::Calls::then_room, crate::specs::Calls::room_in, crate::specs::Calls::lay_if, crate::specs::Laid::is_long))]
pub fn copy_out(session: &[u8], out: &mut [u8]) -> Result<(), Refusal>
    ensures { (result ≡ copy_answer (session_voice session.now) session.now out.old)
        × (out.new ≡ copy_octets (session_voice session.now) session.now out.old) }
{
    if !has_group(session) {
        return Err(Refusal::NotApplicable);
    }
    if out.len() < OCTETS {
        return Err(Refusal::NoRoom);
    }
    octets::copy(out, 0, &session[32..1904]);
    octets::fill(out, 1872, 432, 0);
    Ok(())
}

// Ends the held group as pouring does, and writes nothing.
#[tactic(auto, unfolding(crate::specs::Calls::drop_answer, crate::specs::Calls::drop_octets, crate::specs::Calls::lay_if))]
pub fn drop_group(session: &mut [u8]) -> Result<(), Refusal>
    ensures { (result ≡ drop_answer (session_voice session.old) session.old)
        × (session.new ≡ drop_octets (session_voice session.old) session.old) }
{
    if !has_group(session) {
        return Err(Refusal::NotApplicable);
    }
    let standing = standing_at(session);
    put_vacant(session, session::end_group(standing));
    Ok(())
}

// Ends a session: all its octets are zero.
#[tactic(auto, unfolding(crate::specs::Calls::end_answer, crate::specs::Calls::end_octets, crate::specs::Calls::room_in, crate::specs::Calls::lay_if, crate::specs::Laid::is_long))]
pub fn end(session: &mut [u8]) -> Result<(), Refusal>
    ensures { (result ≡ end_answer session.old) × (session.new ≡ end_octets session.old) }
{
    if session.len() < OCTETS {
        return Err(Refusal::NoRoom);
    }
    octets::fill(session, 0, OCTETS, 0);
    Ok(())
}

// Joins two holdings.
#[tactic(auto, unfolding(crate::specs::Calls::join_answer, crate::specs::Calls::join_octets, crate::specs::Calls::then_room, crate::specs::Calls::lay_if))]
pub fn join(a: &[u8], b: &[u8], out: &mut [u8]) -> Result<(), Refusal>
    ensures { (result ≡ join_answer (holding_voice a.now) a.now b.now out.old)
        × (out.new ≡ join_octets (holding_voice a.now) a.now b.now out.old) }
{
    let all = joining::join(holding_in(a), holding_in(b))?;
    give_holding(out, all)
}

// Pours a holding.
#[tactic(auto, unfolding(crate::specs::Calls::pour_held))]
pub fn pour_holding(holding: &[u8], out: &mut [u8]) -> Result<usize, Refusal>
    ensures { Writes (pour_held (holding_voice holding.now) holding.now) out.old result out.new }
{
    pouring::pour(holding_in(holding), out)
}

// What a holding is.
#[tactic(auto, unfolding(crate::specs::Calls::read_held))]
pub fn read_holding(holding: &[u8]) -> Result<Described, Refusal>
    ensures { result ≡ read_held (holding_voice holding.now) holding.now }
{
    holding::read(holding_in(holding))
}

// The lost frames between the group of one holding and that of a later one.
#[tactic(auto, unfolding(crate::specs::Calls::lost_of))]
pub fn lost_between(before: &[u8], after: &[u8]) -> Result<usize, Refusal>
    ensures { result ≡ lost_of (holding_voice before.now) before.now after.now }
{
    holding::lost_between(holding_in(before), holding_in(after))
}
