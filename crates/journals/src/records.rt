//! Records as words: their fields from the left.
ghost use Rattle.offers.specs.Tables.{package_layout, band_layout, pair_layout, exclusion_layout, limit_layout};
ghost use Rattle.journals.specs.Readers.{unread, Gives};
ghost use Rattle.journals.specs.Records.{record_at, offer_at};

use crate::words::Words;
use crate::wrongs::Wrong;
use offers::{Band, Exclusion, Kind, Limit, Offer, Package, Pair};

fn package(words: &mut Words) -> Result<Package, Wrong>
    ensures { Gives (λ r. r) result words.new (record_at package_layout (unread words.old)) }
{
    Ok(Package {
        power: words.next_u32()?,
        energy: words.next_u32()?,
        certificates: words.next_u32()?,
        nameplate: words.next_u32()?,
        price: words.next_u64()?,
        power_zone: words.next_u8()?,
        interconnection_zone: words.next_u8()?,
        export_zone: words.next_u8()?,
        price_zone: words.next_u8()?,
        date: words.next_u8()?,
        unqualified: words.next_u8()?,
        dollar: words.next_u8()?,
    })
}

fn band(words: &mut Words) -> Result<Band, Wrong>
    ensures { Gives (λ r. r) result words.new (record_at band_layout (unread words.old)) }
{
    Ok(Band {
        market: words.next_u8()?,
        quantity: words.next_u32()?,
        price: words.next_u32()?,
        buyer: words.next_u8()?,
    })
}

fn pair(words: &mut Words) -> Result<Pair, Wrong>
    ensures { Gives (λ r. r) result words.new (record_at pair_layout (unread words.old)) }
{
    Ok(Pair {
        dependent: words.next_u8()?,
        needed: words.next_u8()?,
    })
}

fn exclusion(words: &mut Words) -> Result<Exclusion, Wrong>
    ensures { Gives (λ r. r) result words.new (record_at exclusion_layout (unread words.old)) }
{
    Ok(Exclusion {
        group: words.next_u8()?,
        member: words.next_u8()?,
    })
}

fn limit(words: &mut Words) -> Result<Limit, Wrong>
    ensures { Gives (λ r. r) result words.new (record_at limit_layout (unread words.old)) }
{
    Ok(Limit {
        sort: words.next_u8()?,
        zone: words.next_u8()?,
        amount: words.next_u32()?,
    })
}

/// A record of the kind.
pub fn offer(kind: Kind, words: &mut Words) -> Result<Offer, Wrong>
    ensures { Gives (λ r. r) result words.new (offer_at kind (unread words.old)) }
{
    Ok(match kind {
        Kind::Package => Offer::Package(package(words)?),
        Kind::Band => Offer::Band(band(words)?),
        Kind::Pair => Offer::Pair(pair(words)?),
        Kind::Exclusion => Offer::Exclusion(exclusion(words)?),
        Kind::Limit => Offer::Limit(limit(words)?),
    })
}
