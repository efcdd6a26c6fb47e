// The properties and the path of a directory entry.
#![tactic(auto)]

ghost use Rattle.std.specs.Prelude.{◌≡◌, ◌+◌, ◌<◌};
ghost use Rattle.entry_parts.specs.Properties.{PropertiesOf, property_refusal, size_octets};
ghost use Rattle.entry_parts.specs.Path.{zero_at, path_refusal, path_write_refusal};
ghost use Rattle.refusals.specs.Faults.{refused};

use refusals::Fault;

// The fields of the properties: bits 6 and 7, bit 10, and bits 8 and 9.
#[derive(Clone, Copy)]
pub struct Properties {
    pub special: u64,
    pub bundle: u64,
    pub width: u64,
}

// Bit b of the properties, counted from the highest, is bit 15 - b counted from the lowest.
fn split_properties(x: u64) -> Properties
    ensures { PropertiesOf x result }
{
    Properties {
        special: (x >> 8) & 3,
        bundle: (x >> 5) & 1,
        width: (x >> 6) & 3,
    }
}

// The octets of the size, by the properties.
pub fn size_octets(x: u64) -> usize
    ensures { result ≡ size_octets x }
{
    let p = split_properties(x);
    descriptors::octets_of_width(p.width)
}

// Refusal 6 of properties.
#[tactic(auto, unfolding(crate::specs::Properties::property_refusal))]
pub fn property_refusal(x: u64) -> Result<(), Fault>
    ensures { refused result ≡ property_refusal x }
{
    let p = split_properties(x);
    if p.special != 0 || p.bundle != 0 {
        return Err(Fault::NotAFile);
    }
    Ok(())
}

// How many octets stand before the first zero octet; all of them where there is none.
fn zero_at(r: &[u8]) -> usize
    ensures { result ≡ zero_at r.now }
{
    r.iter().position(|x| *x == 0).unwrap_or(r.len())
}

// Refusals 1 and 8 of what follows Ctime.
#[tactic(auto, unfolding(crate::specs::Path::path_refusal))]
pub fn path_refusal(r: &[u8]) -> Result<(), Fault>
    ensures { refused result ≡ path_refusal r.now }
{
    let z = zero_at(r);
    if z == r.len() {
        if r.len() < 1024 {
            return Err(Fault::Short);
        }
        return Err(Fault::Path);
    }
    if z == 0 || 1023 < z || z + 1 != r.len() {
        return Err(Fault::Path);
    }
    Ok(())
}

// Refusal 8 of a path to be written.
#[tactic(auto, unfolding(crate::specs::Path::path_write_refusal))]
pub fn path_write_refusal(path: &[u8]) -> Result<(), Fault>
    ensures { refused result ≡ path_write_refusal path.now }
{
    if path.is_empty() || 1023 < path.len() || zero_at(path) != path.len() {
        return Err(Fault::Path);
    }
    Ok(())
}
