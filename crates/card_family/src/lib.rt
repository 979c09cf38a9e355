// The feed families (document 02, W-204): "The top 4 bits of a ration number are its family, 0 to 15." The totals are lent by whoever
// keeps them, a word for each family.

#![tactic(auto)]

ghost use Rattle.std.specs.Prelude.{◌≡◌, ◌+◌, ◌*◌, ◌<◌, length, nat_le};
ghost use Rattle.card_family.specs.Families.{family_count, family_size, family_of, counted_in, counted_out, several_in};

// How many families there are.
pub const FAMILIES: usize = 16;

// How many numbers a family has.
const FAMILY_SIZE: u32 = 268435456;

// The family of a number.
fn family_of(key: u32) -> usize
    ensures { (result ≡ family_of key) × (result < family_count) }
{
    (key / FAMILY_SIZE) as usize
}

// So many pairs of the family of this key are put in. A total at its end goes round.
pub fn count_several(totals: &mut [u32], key: u32, count: u32)
    requires { length totals.old ≡ family_count }
    ensures { totals.new ≡ several_in key count totals.old }
{
    let family = family_of(key);
    totals[family] = totals[family].wrapping_add(count);
}

// A pair with this key is put in.
pub fn count_in(totals: &mut [u32], key: u32)
    requires { length totals.old ≡ family_count }
    ensures { totals.new ≡ counted_in key totals.old }
{
    count_several(totals, key, 1);
}

// A pair with this key is taken out: once round less one.
pub fn count_out(totals: &mut [u32], key: u32)
    requires { length totals.old ≡ family_count }
    ensures { totals.new ≡ counted_out key totals.old }
{
    count_several(totals, key, u32::MAX);
}

// Whether the numbers from `low`, included, to `high`, excluded, are all of the family of `low`.
pub fn is_one_family(low: u32, high: u64) -> bool
    ensures { result ≡ nat_le high ((family_of low + 1) * family_size) }
{
    let family = family_of(low) as u64;
    high <= (family + 1) * u64::from(FAMILY_SIZE)
}
