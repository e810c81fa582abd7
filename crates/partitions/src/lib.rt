// The partition tables of the Rust's src/bcn_data.rs: the subset of each pixel, the anchors, and how many pixels a subset has.
// The Rust's parsers of byte strings are constant tables here, and that they say what the strings say is proved. The decoder reads
// the words of `words`, which say the same.

#![tactic(auto)]

ghost use Rattle.std.specs.Prelude.{◌≡◌, ◌+◌, ◌*◌, ◌<◌};
ghost use Rattle.bcn_format.specs.Block.{field};
ghost use Rattle.bcn_format.specs.Partitions.{how_many};
ghost use Rattle.partitions.specs.Maps.{fixups3, map2, map3, subsets};

pub mod words;

// The subset of each pixel for modes with 2 subsets: bit i is that of pixel i. `fixup_index_2` is the second anchor; the first
// is always 0.
#[derive(Clone, Copy)]
pub struct Subset2Map {
    pub subset_indexes: u16,
    pub fixup_index_2: u8,
}

impl Subset2Map {
    pub fn get_subset_index(self, pixel_index: u8) -> u8
        requires { pixel_index < 16 }
        ensures { result ≡ field self.subset_indexes pixel_index 1 }
    {
        ((self.subset_indexes >> pixel_index) & 1) as u8
    }

    // The number of pixels in subset 0.
    pub fn count_zeros(self) -> u8
        ensures { result ≡ how_many 0 (subsets 1 self.subset_indexes) }
    {
        16 - self.count_ones()
    }

    // The number of pixels in subset 1.
    pub fn count_ones(self) -> u8
        ensures { result ≡ how_many 1 (subsets 1 self.subset_indexes) }
    {
        self.subset_indexes.count_ones() as u8
    }
}

// The subset of each pixel for modes with 3 subsets: the bits 2 * i and 2 * i + 1 are those of pixel i, and no pixel has 3.
// `fixup_index_2` and `fixup_index_3` are the second and the third anchor in the order of the pixels, not of the subsets; the
// first is always 0.
#[derive(Clone, Copy)]
pub struct Subset3Map {
    pub subset_indexes: u32,
    pub fixup_index_2: u8,
    pub fixup_index_3: u8,
}

const ONE_MASK: u32 = 0x5555_5555;

const TWO_MASK: u32 = 0xAAAA_AAAA;

impl Subset3Map {
    pub fn get_subset_index(self, pixel_index: u8) -> u8
        requires { pixel_index < 16 }
        ensures { result ≡ field self.subset_indexes (2 * pixel_index) 2 }
    {
        ((self.subset_indexes >> (2 * pixel_index)) & 3) as u8
    }

    // The number of pixels in subset 0.
    pub fn count_zeros(self) -> u8
        requires { how_many 3 (subsets 2 self.subset_indexes) ≡ 0 }
        ensures { result ≡ how_many 0 (subsets 2 self.subset_indexes) }
    {
        16 - self.subset_indexes.count_ones() as u8
    }

    // The number of pixels in subset 1.
    pub fn count_ones(self) -> u8
        requires { how_many 3 (subsets 2 self.subset_indexes) ≡ 0 }
        ensures { result ≡ how_many 1 (subsets 2 self.subset_indexes) }
    {
        (self.subset_indexes & ONE_MASK).count_ones() as u8
    }

    // The number of pixels in subset 2.
    pub fn count_twos(self) -> u8
        requires { how_many 3 (subsets 2 self.subset_indexes) ≡ 0 }
        ensures { result ≡ how_many 2 (subsets 2 self.subset_indexes) }
    {
        (self.subset_indexes & TWO_MASK).count_ones() as u8
    }
}

// The map of a partition, and its parts: a part that stands alone is inlined where it is called, a whole map is not.
pub fn partition_set_2(id: u8) -> Subset2Map
    requires { id < 64 }
    ensures { result ≡ map2 id }
{
    Subset2Map {
        subset_indexes: subset_indexes_2(id),
        fixup_index_2: fixup_index_2(id),
    }
}

// The fields one by one, for who wants no more of a table than it reads.
pub fn subset_indexes_2(id: u8) -> u16
    requires { id < 64 }
    ensures { result ≡ (map2 id).subset_indexes }
{
    PARTITION_SET_2_SUBSETS[id as usize]
}

pub fn fixup_index_2(id: u8) -> u8
    requires { id < 64 }
    ensures { result ≡ (map2 id).fixup_index_2 }
{
    PARTITION_SET_2_FIXUPS[id as usize]
}

pub fn partition_set_3(id: u8) -> Subset3Map
    requires { id < 64 }
    ensures { result ≡ map3 id }
{
    let fixups = fixup_indexes_3(id);
    Subset3Map {
        subset_indexes: subset_indexes_3(id),
        fixup_index_2: fixups.fixup_index_2,
        fixup_index_3: fixups.fixup_index_3,
    }
}

pub fn subset_indexes_3(id: u8) -> u32
    requires { id < 64 }
    ensures { result ≡ (map3 id).subset_indexes }
{
    PARTITION_SET_3_SUBSETS[id as usize]
}

// Both anchors behind pixel 0, in the order of the pixels and not of the subsets.
#[derive(Clone, Copy)]
pub struct Fixups {
    pub fixup_index_2: u8,
    pub fixup_index_3: u8,
}

pub fn fixup_indexes_3(id: u8) -> Fixups
    requires { id < 64 }
    ensures { result ≡ fixups3 id }
{
    let both = both_fixups_3(id);
    Fixups {
        fixup_index_2: both % 16,
        fixup_index_3: both >> 4,
    }
}

fn both_fixups_3(id: u8) -> u8
    requires { id < 64 }
    ensures { result ≡ (map3 id).fixup_index_3 * 16 + (map3 id).fixup_index_2 }
{
    PARTITION_SET_3_FIXUPS[id as usize]
}

// The Rust's `PARTITION_SET_2`, field by field: a constant is laid down anew where it is read, and an array of structs would
// cost several times as much there.
const PARTITION_SET_2_SUBSETS: [u16; 64] = [
    // 0
    0xCCCC, 0x8888, 0xEEEE, 0xECC8, 0xC880, 0xFEEC, 0xFEC8, 0xEC80, 0xC800, 0xFFEC, 0xFE80, 0xE800,
    0xFFE8, 0xFF00, 0xFFF0, 0xF000,
    // 16
    0xF710, 0x008E, 0x7100, 0x08CE, 0x008C, 0x7310, 0x3100, 0x8CCE, 0x088C, 0x3110, 0x6666, 0x366C,
    0x17E8, 0x0FF0, 0x718E, 0x399C,
    // 32
    0xAAAA, 0xF0F0, 0x5A5A, 0x33CC, 0x3C3C, 0x55AA, 0x9696, 0xA55A, 0x73CE, 0x13C8, 0x324C, 0x3BDC,
    0x6996, 0xC33C, 0x9966, 0x0660,
    // 48
    0x0272, 0x04E4, 0x4E40, 0x2720, 0xC936, 0x936C, 0x39C6, 0x639C, 0x9336, 0x9CC6, 0x817E, 0xE718,
    0xCCF0, 0x0FCC, 0x7744, 0xEE22,
];

const PARTITION_SET_2_FIXUPS: [u8; 64] = [
    // 0
    15, 15, 15, 15, 15, 15, 15, 15, 15, 15, 15, 15, 15, 15, 15, 15,
    // 16
    15, 2, 8, 2, 2, 8, 8, 15, 2, 8, 2, 2, 8, 8, 2, 2,
    // 32
    15, 15, 6, 8, 2, 8, 15, 15, 2, 8, 2, 2, 2, 15, 15, 6,
    // 48
    6, 2, 6, 8, 15, 15, 2, 2, 15, 15, 15, 15, 15, 2, 2, 15,
];

// The Rust's `PARTITION_SET_3`, the same way: `fixup_index_2` is the low hexadecimal digit of a fixup, `fixup_index_3` the high one.
const PARTITION_SET_3_SUBSETS: [u32; 64] = [
    // 0
    0xAA68_5050,
    0x6A5A_5040,
    0x5A5A_4200,
    0x5450_A0A8,
    0xA5A5_0000,
    0xA0A0_5050,
    0x5555_A0A0,
    0x5A5A_5050,
    0xAA55_0000,
    0xAA55_5500,
    0xAAAA_5500,
    0x9090_9090,
    0x9494_9494,
    0xA4A4_A4A4,
    0xA9A5_9450,
    0x2A0A_4250,
    // 16
    0xA594_5040,
    0x0A42_5054,
    0xA5A5_A500,
    0x55A0_A0A0,
    0xA8A8_5454,
    0x6A6A_4040,
    0xA4A4_5000,
    0x1A1A_0500,
    0x0050_A4A4,
    0xAAA5_9090,
    0x1469_6914,
    0x6969_1400,
    0xA085_85A0,
    0xAA82_1414,
    0x50A4_A450,
    0x6A5A_0200,
    // 32
    0xA9A5_8000,
    0x5090_A0A8,
    0xA8A0_9050,
    0x2424_2424,
    0x00AA_5500,
    0x2492_4924,
    0x2449_9224,
    0x50A5_0A50,
    0x500A_A550,
    0xAAAA_4444,
    0x6666_0000,
    0xA5A0_A5A0,
    0x50A0_50A0,
    0x6928_6928,
    0x44AA_AA44,
    0x6666_6600,
    // 48
    0xAA44_4444,
    0x54A8_54A8,
    0x9580_9580,
    0x9696_9600,
    0xA854_54A8,
    0x8095_9580,
    0xAA14_1414,
    0x9696_0000,
    0xAAAA_1414,
    0xA050_50A0,
    0xA0A5_A5A0,
    0x9600_0000,
    0x4080_4080,
    0xA9A8_A9A8,
    0xAAAA_AA44,
    0x2A4A_5254,
];

const PARTITION_SET_3_FIXUPS: [u8; 64] = [
    // 0
    0xF3, 0x83, 0xF8, 0xF3, 0xF8, 0xF3, 0xF3, 0xF8, 0xF8, 0xF8, 0xF6, 0xF6, 0xF6, 0xF5, 0xF3, 0x83,
    // 16
    0xF3, 0x83, 0xF8, 0xF3, 0xF3, 0x83, 0xF6, 0xA8, 0x53, 0xF8, 0x86, 0xA6, 0xF8, 0xF5, 0xFA, 0xF8,
    // 32
    0xF8, 0xF3, 0xF3, 0xA5, 0xA6, 0xA8, 0x98, 0xFA, 0xF6, 0xF3, 0xF8, 0xF5, 0xF3, 0xF6, 0xF6, 0xF8,
    // 48
    0xF3, 0xF3, 0xF5, 0xF5, 0xF5, 0xF8, 0xF5, 0xFA, 0xF5, 0xFA, 0xF8, 0xFD, 0xF3, 0xFC, 0xF3, 0x83,
];
