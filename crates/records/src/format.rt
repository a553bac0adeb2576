// One record: a byte that tells which fields it has, then those fields, the lowest bit's first, each with its lowest byte first.
ghost use Rattle.std.specs.Prelude.{◌≡◌, ℕ, ◌+◌, ◌<◌, ◌≤◌, true, length, take, drop, slice_index};
ghost use Rattle.records.specs.Format.{bit_of, stands, width_of, size_of, sizes, fields_of, map_fits, little, record_in};

// A field by its bit in the map.
#[derive(Clone, Copy, Debug, PartialEq, Eq)]
pub enum Field {
    Card = 1,
    Lot = 2,
    Stage = 4,
    Cycles = 8,
}

// What a record says of one card.
#[derive(Clone, Copy, Debug, PartialEq, Eq)]
pub struct Record {
    pub card: u16,
    pub lot: Option<u16>,
    pub stage: Option<u16>,
    pub cycles: Option<u32>,
}

impl Field {
    // Whether the field's bit stands in the map.
    fn stands_in(self, map: u8) -> bool
        ensures { result ≡ stands map self }
    {
        map & self as u8 != 0
    }

    // How many bytes the field takes in a record with that map.
    fn width(self, map: u8) -> usize
        ensures value { result ≡ width_of map self }
        ensures few { result ≤ 4 }
    {
        if !self.stands_in(map) {
            return 0;
        }
        match self {
            Field::Card | Field::Lot | Field::Stage => 2,
            Field::Cycles => 4,
        }
    }
}

// A record has a card, and no bit stands that has no field.
pub(crate) fn map_fits(map: u8) -> bool
    ensures { result ≡ map_fits map }
{
    Field::Card.stands_in(map) && map & 0xf0 == 0
}

// How many bytes follow the map.
pub(crate) fn fields_len(map: u8) -> usize
    ensures value { result ≡ sizes (fields_of map) }
    ensures few { result ≤ 16 }
{
    Field::Card.width(map)
        + Field::Lot.width(map)
        + Field::Stage.width(map)
        + Field::Cycles.width(map)
}

fn word(bytes: &[u8], at: usize) -> u16
    requires { at + 2 ≤ length bytes.now }
    ensures { result ≡ little (take 2 (drop at bytes.now)) }
{
    u16::from_le_bytes([bytes[at], bytes[at + 1]])
}

fn long(bytes: &[u8], at: usize) -> u32
    requires { at + 4 ≤ length bytes.now }
    ensures { result ≡ little (take 4 (drop at bytes.now)) }
{
    u32::from_le_bytes([bytes[at], bytes[at + 1], bytes[at + 2], bytes[at + 3]])
}

// The record that the bytes begin with: each field stands at the place after those before it.
pub(crate) fn record_in(bytes: &[u8]) -> Record
    requires { (map_fits (slice_index bytes.now 0) ≡ true) × (sizes (fields_of (slice_index bytes.now 0)) < length bytes.now) }
    ensures { result ≡ record_in bytes.now }
{
    let map = bytes[0];
    let stage_at = 3 + Field::Lot.width(map);
    let cycles_at = stage_at + Field::Stage.width(map);
    Record {
        card: word(bytes, 1),
        lot: Field::Lot.stands_in(map).then(|| word(bytes, 3)),
        stage: Field::Stage.stands_in(map).then(|| word(bytes, stage_at)),
        cycles: Field::Cycles.stands_in(map).then(|| long(bytes, cycles_at)),
    }
}
