ghost use Rattle.std.specs.Prelude.{◌≡◌, ◌<◌, [], ℕ, List, length, map, All, Contains, IfOk};
ghost use Rattle.std.specs.Ordering.{nat_cmp};
ghost use Rattle.std.specs.List.Sorted.{IsStrictlySortedBy};
ghost use Rattle.agg_values.specs.Names.{name_cmp};
ghost use Rattle.agg_segment.specs.storage.Dictionary.{text_at, address_at, address_cmp, IsHit};
ghost use Rattle.agg_segment.specs.storage.Dictionary.{AreInPlaceOrder};

use crate::storage::OrdHit;
use agg_values::{Address, ColumnPaginationOrder, OutOfMemory, Text};
use std::alloc::Global;
use std::cmp::Ordering;
use std::marker::Model;

/// Distinct texts, ascending.
#[derive(Drop)]
pub struct Dictionary {
    // The box keeps a column small.
    texts: Box<Vec<Text>>,
}

impl Model for Dictionary {
    ghost use Rattle.std.specs.Prelude.{List, ℕ};
    ghost use Rattle.std.specs.List.Sorted.{IsStrictlySortedBy};
    ghost use Rattle.agg_values.specs.Names.{name_cmp};

    ghost Value = { List (List ℕ) };

    ghost view = { λ d. d.texts.value.items };

    ghost invariant = { λ d. IsStrictlySortedBy name_cmp d.texts.value.items };
}

impl Dictionary {
    /// Texts that ascend.
    pub fn of(alloc: Global, texts: Vec<Text>) -> Result<Dictionary, OutOfMemory>
        requires { IsStrictlySortedBy name_cmp texts.items }
        ensures { IfOk result (λ dictionary. dictionary ≡ texts.items) }
    {
        let texts = Box::new(alloc, texts)?;
        Ok(Dictionary { texts })
    }

    /// The text at a place.
    pub fn text(&self, place: u64) -> &Text
        requires { place < length self.now }
        ensures { result.now ≡ text_at self.now place }
    {
        &self.texts[place as usize]
    }

    /// The class of a column whose numbers are the places.
    pub fn class(&self) -> ColumnPaginationOrder
        ensures class { result ≡ ColumnPaginationOrder.Str }
        ensures order { AreInPlaceOrder name_cmp self.now [] }
    {
        let _ = &self.texts;
        ColumnPaginationOrder::Str
    }

    /// How the texts of two places compare, which is as the places do.
    pub fn compare(&self, left: u64, right: u64) -> Ordering
        requires left { left < length self.now }
        requires right { right < length self.now }
        ensures places { result ≡ nat_cmp left right }
        ensures texts { result ≡ name_cmp (text_at self.now left) (text_at self.now right) }
    {
        let _ = &self.texts;
        left.cmp(&right)
    }

    /// The first place whose text isn't below a text.
    pub fn hit(&self, text: &Text) -> OrdHit
        ensures hit { IsHit name_cmp self.now text.now result }
        ensures ascending { IsStrictlySortedBy name_cmp self.now }
    {
        match self.texts.binary_search(text) {
            Ok(at) => OrdHit::Exact(at as u64),
            Err(at) => {
                if at == self.texts.len() {
                    return OrdHit::AfterLast;
                }
                OrdHit::Next(at as u64)
            }
        }
    }
}

/// Distinct addresses, ascending.
#[derive(Drop)]
pub struct AddressList {
    // The box keeps a column small.
    addresses: Box<Vec<u128>>,
}

impl Model for AddressList {
    ghost use Rattle.std.specs.Prelude.{List, map};
    ghost use Rattle.agg_values.specs.declared.address.Address.{Address};
    ghost use Rattle.agg_segment.specs.storage.Dictionary.{address_cmp};
    ghost use Rattle.std.specs.List.Sorted.{IsStrictlySortedBy};
    ghost use Rattle.std.specs.Ordering.{nat_cmp};

    ghost Value = { List Address };

    ghost view = { λ list. map (λ n. record { 0 = n }) list.addresses.value.items };

    ghost invariant = { λ list. IsStrictlySortedBy nat_cmp list.addresses.value.items };
}

impl AddressList {
    /// The distinct addresses of a list.
    pub fn of(alloc: Global, mut addresses: Vec<u128>) -> Result<AddressList, OutOfMemory>
        ensures { IfOk result
            (λ list. All (λ n. Contains list (record { 0 = n })) addresses.items) }
    {
        addresses.sort_unstable();
        addresses.dedup();
        let addresses = Box::new(alloc, addresses)?;
        Ok(AddressList { addresses })
    }

    /// The address at a place.
    pub fn address(&self, place: u64) -> Address
        requires { place < length self.now }
        ensures { result ≡ address_at self.now place }
    {
        Address(self.addresses[place as usize])
    }

    /// The class of a column whose numbers are the places.
    pub fn class(&self) -> ColumnPaginationOrder
        ensures class { result ≡ ColumnPaginationOrder.IpAddr }
        ensures order { AreInPlaceOrder address_cmp self.now (record { 0 = 0 }) }
    {
        let _ = &self.addresses;
        ColumnPaginationOrder::IpAddr
    }

    /// How the addresses of two places compare, which is as the places do.
    pub fn compare(&self, left: u64, right: u64) -> Ordering
        requires left { left < length self.now }
        requires right { right < length self.now }
        ensures places { result ≡ nat_cmp left right }
        ensures addresses { result
            ≡ address_cmp (address_at self.now left) (address_at self.now right) }
    {
        let _ = &self.addresses;
        left.cmp(&right)
    }

    /// The first place whose address isn't below an address.
    pub fn hit(&self, address: Address) -> OrdHit
        ensures hit { IsHit address_cmp self.now address result }
        ensures ascending { IsStrictlySortedBy address_cmp self.now }
    {
        match self.addresses.binary_search(&address.0) {
            Ok(at) => OrdHit::Exact(at as u64),
            Err(at) => {
                if at == self.addresses.len() {
                    return OrdHit::AfterLast;
                }
                OrdHit::Next(at as u64)
            }
        }
    }

    /// The place of an address of the list.
    pub fn place(&self, address: Address) -> u64
        requires { Contains self.now address }
        ensures within { result < length self.now }
        ensures address { address_at self.now result ≡ address }
    {
        match self.addresses.binary_search(&address.0) {
            Ok(at) => at as u64,
            Err(at) => at as u64,
        }
    }
}
