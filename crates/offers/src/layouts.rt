//! The layout of each kind's records: its tag, its length, its count of offer numbers, its ranges and its bytes.
ghost use Rattle.std.specs.Prelude.{refl};
ghost use Rattle.std.proofs.Common.{rules};
ghost use Rattle.offers.specs.Tables.{package_layout, band_layout, pair_layout, exclusion_layout, limit_layout};
ghost use Rattle.offers.specs.Laws.Kinds.{package_known, package_laws, band_laws, pair_laws, exclusion_laws, limit_laws};

use crate::records::{Band, Exclusion, Limit, Package, Pair, Record, Sort};
use crate::words::{first_outside, number_at, put, within};

impl Record for Package {
    const TAG: u8 = 1;

    const LENGTH: u16 = 31;

    const COUNT: u8 = 40;

    ghost TAG = { 1 };

    ghost LENGTH = { 31 };

    ghost COUNT = { 40 };

    ghost layout = { package_layout };

    ghost tagged = { refl };

    ghost sized = { refl };

    ghost counted = { refl };

    ghost laws = { package_laws };

    ghost known_by_fields = { package_known };

    fn fault(&self) -> Option<u8> {
        first_outside(&[
            within(self.power as u64, 0, 10_000),
            within(self.energy as u64, 0, 10_000_000),
            within(self.certificates as u64, 0, 10_000_000),
            within(self.nameplate as u64, 0, 100_000),
            within(self.price, 0, 10_000_000_000),
            within(self.power_zone as u64, 1, 3),
            within(self.interconnection_zone as u64, 1, 16),
            within(self.export_zone as u64, 1, 16),
            within(self.price_zone as u64, 1, 16),
            within(self.date as u64, 0, 2),
            within(self.unqualified as u64, 0, 1),
            within(self.dollar as u64, 0, 1),
        ])
    }

    fn read(source: &[u8]) -> Package {
        Package {
            power: number_at::<4>(source, 0) as u32,
            energy: number_at::<4>(source, 4) as u32,
            certificates: number_at::<4>(source, 8) as u32,
            nameplate: number_at::<4>(source, 12) as u32,
            price: number_at::<8>(source, 16),
            power_zone: number_at::<1>(source, 24) as u8,
            interconnection_zone: number_at::<1>(source, 25) as u8,
            export_zone: number_at::<1>(source, 26) as u8,
            price_zone: number_at::<1>(source, 27) as u8,
            date: number_at::<1>(source, 28) as u8,
            unqualified: number_at::<1>(source, 29) as u8,
            dollar: number_at::<1>(source, 30) as u8,
        }
    }

    fn write(&self, out: &mut [u8]) {
        put::<4>(out, 0, self.power as u64);
        put::<4>(out, 4, self.energy as u64);
        put::<4>(out, 8, self.certificates as u64);
        put::<4>(out, 12, self.nameplate as u64);
        put::<8>(out, 16, self.price);
        put::<1>(out, 24, self.power_zone as u64);
        put::<1>(out, 25, self.interconnection_zone as u64);
        put::<1>(out, 26, self.export_zone as u64);
        put::<1>(out, 27, self.price_zone as u64);
        put::<1>(out, 28, self.date as u64);
        put::<1>(out, 29, self.unqualified as u64);
        put::<1>(out, 30, self.dollar as u64);
    }
}

impl Record for Band {
    const TAG: u8 = 2;

    const LENGTH: u16 = 10;

    const COUNT: u8 = 64;

    ghost TAG = { 2 };

    ghost LENGTH = { 10 };

    ghost COUNT = { 64 };

    ghost layout = { band_layout };

    ghost tagged = { refl };

    ghost sized = { refl };

    ghost counted = { refl };

    ghost laws = { band_laws };

    ghost known_by_fields = { Prim.search rules };

    fn fault(&self) -> Option<u8> {
        first_outside(&[
            within(self.market as u64, 1, 5),
            within(self.quantity as u64, 1, 100_000_000),
            within(self.price as u64, 0, 10_000_000),
            within(self.buyer as u64, 1, 16),
        ])
    }

    fn read(source: &[u8]) -> Band {
        Band {
            market: number_at::<1>(source, 0) as u8,
            quantity: number_at::<4>(source, 1) as u32,
            price: number_at::<4>(source, 5) as u32,
            buyer: number_at::<1>(source, 9) as u8,
        }
    }

    fn write(&self, out: &mut [u8]) {
        put::<1>(out, 0, self.market as u64);
        put::<4>(out, 1, self.quantity as u64);
        put::<4>(out, 5, self.price as u64);
        put::<1>(out, 9, self.buyer as u64);
    }
}

impl Record for Pair {
    const TAG: u8 = 3;

    const LENGTH: u16 = 2;

    const COUNT: u8 = 64;

    ghost TAG = { 3 };

    ghost LENGTH = { 2 };

    ghost COUNT = { 64 };

    ghost layout = { pair_layout };

    ghost tagged = { refl };

    ghost sized = { refl };

    ghost counted = { refl };

    ghost laws = { pair_laws };

    ghost known_by_fields = { Prim.search rules };

    fn fault(&self) -> Option<u8> {
        first_outside(&[
            within(self.dependent as u64, 1, 40),
            within(self.needed as u64, 1, 40) && self.needed != self.dependent,
        ])
    }

    fn read(source: &[u8]) -> Pair {
        Pair {
            dependent: number_at::<1>(source, 0) as u8,
            needed: number_at::<1>(source, 1) as u8,
        }
    }

    fn write(&self, out: &mut [u8]) {
        put::<1>(out, 0, self.dependent as u64);
        put::<1>(out, 1, self.needed as u64);
    }
}

impl Record for Exclusion {
    const TAG: u8 = 4;

    const LENGTH: u16 = 2;

    const COUNT: u8 = 64;

    ghost TAG = { 4 };

    ghost LENGTH = { 2 };

    ghost COUNT = { 64 };

    ghost layout = { exclusion_layout };

    ghost tagged = { refl };

    ghost sized = { refl };

    ghost counted = { refl };

    ghost laws = { exclusion_laws };

    ghost known_by_fields = { Prim.search rules };

    fn fault(&self) -> Option<u8> {
        first_outside(&[
            within(self.group as u64, 1, 16),
            within(self.member as u64, 1, 40),
        ])
    }

    fn read(source: &[u8]) -> Exclusion {
        Exclusion {
            group: number_at::<1>(source, 0) as u8,
            member: number_at::<1>(source, 1) as u8,
        }
    }

    fn write(&self, out: &mut [u8]) {
        put::<1>(out, 0, self.group as u64);
        put::<1>(out, 1, self.member as u64);
    }
}

impl Record for Limit {
    const TAG: u8 = 5;

    const LENGTH: u16 = 6;

    const COUNT: u8 = 32;

    ghost TAG = { 5 };

    ghost LENGTH = { 6 };

    ghost COUNT = { 32 };

    ghost layout = { limit_layout };

    ghost tagged = { refl };

    ghost sized = { refl };

    ghost counted = { refl };

    ghost laws = { limit_laws };

    ghost known_by_fields = { Prim.search rules };

    fn fault(&self) -> Option<u8> {
        let percentage = self.is_on(Sort::Percentage);
        let last_zone = if percentage { 4 } else { 16 };
        let most = if percentage { 100 } else { 1_000_000_000 };
        first_outside(&[
            within(self.sort as u64, 1, 3),
            within(self.zone as u64, 1, last_zone),
            within(self.amount as u64, 0, most),
        ])
    }

    fn read(source: &[u8]) -> Limit {
        Limit {
            sort: number_at::<1>(source, 0) as u8,
            zone: number_at::<1>(source, 1) as u8,
            amount: number_at::<4>(source, 2) as u32,
        }
    }

    fn write(&self, out: &mut [u8]) {
        put::<1>(out, 0, self.sort as u64);
        put::<1>(out, 1, self.zone as u64);
        put::<4>(out, 2, self.amount as u64);
    }
}
