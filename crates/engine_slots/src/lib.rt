// What the engine keeps of a transfer beside the library's table: a slot of words for each, after the area and in the table's order.
#![tactic(auto)]

ghost use Rattle.std.specs.Prelude.{◌≡◌, cond, ◌≤◌, ◌<◌, length, take, drop, eqb};
ghost use Rattle.area.specs.Layout.{transfer_places};
ghost use Rattle.words.specs.Words.{word_at, put_word};
ghost use Rattle.engine_slots.specs.Layout.{slot_words, slot_word_at, snapshot_octets};
ghost use Rattle.engine_slots.specs.Slots.{slot_at, numbers_of, put_words, set_slot, insert_slot, remove_slot};

// Who sends: an address and a port, as the shell tells them.
#[derive(Clone, Copy)]
pub struct Sender {
    pub high: u64,
    pub low: u64,
    pub port: u64,
}

// The two halves of the digest of METADATA.
#[derive(Clone, Copy)]
pub struct Digest {
    pub first: u64,
    pub second: u64,
}

// The file that its octets go to; whose packets are taken; the digest of its METADATA; 1 where the page has its name; 1 where it was
// reported; the number of the sync that covers the first question since the last answer (0: no answer is due), and 1 where it was asked
// for; when it was last heard; the number of the sync that covers the latest question.
#[derive(Clone, Copy)]
pub struct Slot {
    pub file: u64,
    pub owner: Sender,
    pub digest: Digest,
    pub named: u64,
    pub reported: u64,
    pub due: u64,
    pub asked: u64,
    pub heard: u64,
    pub last: u64,
}

// A stretch of a file: its octets from `from` up to `to`, which stand in the packet from `start` on.
#[derive(Clone, Copy)]
pub struct Stretch {
    pub id: u64,
    pub file: u64,
    pub from: u64,
    pub to: u64,
    pub start: u64,
}

// What is to be done for DATA from an offset on: nothing, since it is refused or another's; nothing more; a stretch that was received is
// compared with its file; or a stretch that was not is written.
#[derive(Clone, Copy)]
pub enum Look {
    Stranger,
    Over,
    Known(Stretch),
    New(Stretch),
}

// The files of a transfer that is opened. `ends` is 1 where another transfer of the Id ends for it, whose file is `old`.
#[derive(Clone, Copy)]
pub struct Files {
    pub id: u64,
    pub file: u64,
    pub ends: u64,
    pub old: u64,
}

// What is to be done for METADATA: nothing; nothing yet, since the page of the open transfer is complete and not reported; nothing, since
// it is the METADATA of the open transfer; the sender has ended the transfer, whose file is told; or files are made.
#[derive(Clone, Copy)]
pub enum Meeting {
    Wait,
    Kept(u64),
    Ended(u64),
    Make(Files),
}

// ---- what is due

// What is due where sync `next` will cover a question: the first that waits, where one does.
pub fn first_due(due: u64, next: u64) -> u64
    ensures { result ≡ cond (eqb due 0) next due }
{
    if due == 0 {
        return next;
    }
    due
}

// ---- slots in words

// The words of a slot, and where the slots begin.
const SLOT_WORDS: usize = 12;

const SLOTS_AT: usize = area::AREA_OCTETS / 8;

// The octets of an area and its slots.
pub const SNAPSHOT_OCTETS: usize = (SLOTS_AT + area::TRANSFERS * SLOT_WORDS) * 8;

// The word where the slot at place i begins.
fn word_of(i: usize) -> usize
    requires { i ≤ transfer_places }
    ensures { result ≡ slot_word_at i 0 }
{
    SLOTS_AT + i * SLOT_WORDS
}

// Word f of the slot at place i, and that word put.
fn field(snap: &[u8], i: usize, f: usize) -> u64
    requires { (snapshot_octets ≤ length snap.now) × (i < transfer_places) × (f < slot_words) }
    ensures { result ≡ word_at snap.now (slot_word_at i f) }
{
    words::word(snap, SLOTS_AT + (i * SLOT_WORDS + f))
}

fn put_field(snap: &mut [u8], i: usize, f: usize, v: u64)
    requires { (snapshot_octets ≤ length snap.old) × (i < transfer_places) × (f < slot_words) }
    ensures { snap.new ≡ put_word (slot_word_at i f) v snap.old }
{
    words::put_word(snap, SLOTS_AT + (i * SLOT_WORDS + f), v);
}

// Whose packets are taken at place i, and the digest there.
fn owner_at(snap: &[u8], i: usize) -> Sender
    requires { (snapshot_octets ≤ length snap.now) × (i < transfer_places) }
    ensures { result ≡ (slot_at snap.now i).owner }
{
    Sender {
        high: field(snap, i, 1),
        low: field(snap, i, 2),
        port: field(snap, i, 3),
    }
}

fn digest_at(snap: &[u8], i: usize) -> Digest
    requires { (snapshot_octets ≤ length snap.now) × (i < transfer_places) }
    ensures { result ≡ (slot_at snap.now i).digest }
{
    Digest {
        first: field(snap, i, 4),
        second: field(snap, i, 5),
    }
}

// The slot at place i.
pub fn slot_at(snap: &[u8], i: usize) -> Slot
    requires { (snapshot_octets ≤ length snap.now) × (i < transfer_places) }
    ensures { result ≡ slot_at snap.now i }
{
    let owner = owner_at(snap, i);
    let digest = digest_at(snap, i);
    Slot {
        file: field(snap, i, 0),
        owner,
        digest,
        named: field(snap, i, 6),
        reported: field(snap, i, 7),
        due: field(snap, i, 8),
        asked: field(snap, i, 9),
        heard: field(snap, i, 10),
        last: field(snap, i, 11),
    }
}

// The first words of slot s put at place i, up to the digest, and those after them.
fn put_first(snap: &mut [u8], i: usize, s: Slot)
    requires { (snapshot_octets ≤ length snap.old) × (i < transfer_places) }
    ensures { snap.new ≡ put_words (slot_word_at i 0) (take 6 (numbers_of s)) snap.old }
{
    put_field(snap, i, 0, s.file);
    put_field(snap, i, 1, s.owner.high);
    put_field(snap, i, 2, s.owner.low);
    put_field(snap, i, 3, s.owner.port);
    put_field(snap, i, 4, s.digest.first);
    put_field(snap, i, 5, s.digest.second);
}

fn put_rest(snap: &mut [u8], i: usize, s: Slot)
    requires { (snapshot_octets ≤ length snap.old) × (i < transfer_places) }
    ensures { snap.new ≡ put_words (slot_word_at i 6) (drop 6 (numbers_of s)) snap.old }
{
    put_field(snap, i, 6, s.named);
    put_field(snap, i, 7, s.reported);
    put_field(snap, i, 8, s.due);
    put_field(snap, i, 9, s.asked);
    put_field(snap, i, 10, s.heard);
    put_field(snap, i, 11, s.last);
}

// The slot at place i becomes s.
pub fn set_slot(snap: &mut [u8], i: usize, s: Slot)
    requires { (snapshot_octets ≤ length snap.old) × (i < transfer_places) }
    ensures { snap.new ≡ set_slot snap.old i s }
{
    put_first(snap, i, s);
    put_rest(snap, i, s);
}

// Of n slots, s put in at place p: those from there on move up.
pub fn insert_slot(snap: &mut [u8], n: usize, p: usize, s: Slot)
    requires { (snapshot_octets ≤ length snap.old) × (p ≤ n) × (n < transfer_places) }
    ensures { snap.new ≡ insert_slot snap.old n p s }
{
    words::move_words(snap, word_of(p), word_of(p + 1), (n - p) * SLOT_WORDS);
    set_slot(snap, p, s);
}

// Of n slots, the one at place p taken out: those after it move down.
pub fn remove_slot(snap: &mut [u8], n: usize, p: usize)
    requires { (snapshot_octets ≤ length snap.old) × (p < n) × (n ≤ transfer_places) }
    ensures { snap.new ≡ remove_slot snap.old n p }
{
    words::move_words(snap, word_of(p + 1), word_of(p), (n - (p + 1)) * SLOT_WORDS);
}
