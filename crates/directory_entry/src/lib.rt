// The directory entry that ends a METADATA packet (section 5 of the draft): read and written.
#![tactic(auto)]

ghost use Rattle.std.specs.Prelude.{◌≡◌, ◌+◌, ◌<◌, ◌≤◌, ◌^◌, length};
ghost use Rattle.octets.specs.Put.{put};
ghost use Rattle.directory_entry.specs.Entry.{entry_refusal, entry_of};
ghost use Rattle.directory_entry.specs.WriteEntry.{entry_excess, entry_write_refusal, entry_octets, entry_size};
ghost use Rattle.refusals.specs.Faults.{refused};

use refusals::Fault;

// The fields of an entry. The path is `length` octets from the place `path` of the packet on, without its closing zero octet.
#[derive(Clone, Copy)]
pub struct Entry {
    pub properties: u64,
    pub size: u64,
    pub mtime: u64,
    pub ctime: u64,
    pub path: usize,
    pub length: usize,
}

// The refusal of an entry in a packet with descriptors of d octets.
#[tactic(auto, unfolding(crate::specs::Entry::entry_refusal))]
pub fn entry_refusal(e: &[u8], d: usize) -> Result<(), Fault>
    ensures { refused result ≡ entry_refusal d e.now }
{
    if e.len() < 2 {
        return Err(Fault::Short);
    }
    let x = octets_read::read_two(e, 0);
    entry_parts::property_refusal(x)?;
    let k = entry_parts::size_octets(x);
    let at = 10 + k;
    descriptors::descriptor_refusal(e, 2, k)?;
    if e.len() < at {
        return Err(Fault::Short); // inside the times
    }
    entry_parts::path_refusal(&e[at..])?;
    if !octets::fits(descriptors::descriptor(e, 2, k), d) {
        return Err(Fault::Size);
    }
    Ok(())
}

// The fields of an entry that is not refused and starts at the place `at` of its packet.
pub fn entry_fields(e: &[u8], d: usize, at: usize) -> Entry
    requires { (entry_refusal d e.now ≡ 0) × (at < 2 ^ 16) }
    ensures { result ≡ entry_of at e.now }
{
    let properties = octets_read::read_two(e, 0);
    let k = entry_parts::size_octets(properties);
    let path = 10 + k;
    Entry {
        properties,
        size: descriptors::descriptor(e, 2, k),
        mtime: octets_read::read_four(e, 2 + k),
        ctime: octets_read::read_four(e, 6 + k),
        path: at + path,
        length: e.len() - path - 1,
    }
}

// Refusal 21 of the fields to be written.
#[tactic(auto, unfolding(crate::specs::WriteEntry::entry_excess))]
pub fn entry_excess(properties: u64, size: u64, mtime: u64, ctime: u64) -> Result<(), Fault>
    ensures { refused result ≡ entry_excess properties size mtime ctime }
{
    if 0x10000 <= properties {
        return Err(Fault::Field);
    }
    if !octets::fits(size, entry_parts::size_octets(properties)) {
        return Err(Fault::Field);
    }
    if 0x100000000 <= mtime {
        return Err(Fault::Field);
    }
    if 0x100000000 <= ctime {
        return Err(Fault::Field);
    }
    Ok(())
}

// Refusals 6, 8, 9 of the fields to be written, for a packet with descriptors of d octets.
#[tactic(auto, unfolding(crate::specs::WriteEntry::entry_write_refusal))]
pub fn entry_write_refusal(d: usize, properties: u64, size: u64, path: &[u8]) -> Result<(), Fault>
    ensures { refused result ≡ entry_write_refusal d properties size path.now }
{
    entry_parts::property_refusal(properties)?;
    entry_parts::path_write_refusal(path)?;
    if !octets::fits(size, d) {
        return Err(Fault::Size);
    }
    Ok(())
}

// The octets of an entry from the place `at` of the buffer on.
pub fn put_entry(
    out: &mut [u8],
    at: usize,
    properties: u64,
    size: u64,
    mtime: u64,
    ctime: u64,
    path: &[u8],
)
    requires { at + entry_size properties (length path.now) ≤ length out.old }
    ensures { out.new ≡ put at (entry_octets properties size mtime ctime path.now) out.old }
{
    let k = entry_parts::size_octets(properties);
    let times = at + 2 + k;
    octets::write_number(out, at, 2, properties);
    octets::write_number(out, at + 2, k, size);
    octets::write_number(out, times, 4, mtime);
    octets::write_number(out, times + 4, 4, ctime);
    octets::copy_into(out, times + 8, path);
    octets::write_number(out, times + 8 + path.len(), 1, 0);
}
