//! What a specification declares besides its axioms and goals: instants, domains and items. Values and cells are numbered by these.
ghost use Rattle.std.specs.Prelude.{◌≡◌, ◌<◌, ◌≤◌, ◌+◌, ◌^◌, ◌≤ℤ◌, pos, neg_ℤ, ℕ, nat_lt, length, take, sum_by, slice_get, slice_index, Some, IsTrue, option_map};
ghost use Rattle.std.specs.List.{list_all};
ghost use Rattle.trio_types.specs.declared.spec.Item.{Item};
ghost use Rattle.trio_types.specs.World.{size_of, values_in};
ghost use Rattle.trio_types.specs.Values.{index_of};
ghost use Rattle.trio_types.specs.Cells.{cells_of, rows_of, the_cell, tuples, are_indexes, takes, cell_size};
ghost use Rattle.trio_types.specs.Declarations.{declared_world};

use crate::cells::CellParts;
use crate::spec::{Declarations, DomainKind, Spec};

impl Declarations<'_> {
    /// The value of this index in the domain of this number: a number of a range, or the index itself.
    pub fn value_at(self, domain: u32, index: u32) -> i64
        requires domain_in { domain < length self.domains.now }
        requires index_in { index < size_of self.domains.now domain }
        ensures { slice_get (values_in self.entry.domains.now domain) index ≡ Some result }
    {
        self.first_value(domain) + i64::from(index)
    }

    /// The index of a value in the domain of this number, where it is one of the domain's values.
    pub fn index_of(self, domain: u32, value: i64) -> Option<u32>
        requires domain_in { domain < length self.domains.now }
        requires not_far_back { neg_ℤ (pos (2 ^ 62)) ≤ℤ value }
        requires not_far_on { value ≤ℤ pos (2 ^ 62) }
        ensures { result ≡ index_of (values_in self.entry.domains.now domain) value }
    {
        let distance = value - self.first_value(domain);
        if distance >= 0 && distance < i64::from(self.size_of(domain)) {
            Some(distance as u32)
        } else {
            None
        }
    }

    /// The value of index 0.
    fn first_value(self, domain: u32) -> i64
        requires { domain < length self.domains.now }
        ensures { slice_get (values_in self.entry.domains.now domain) 0 ≡ Some result }
    {
        match &self.domains.get(domain as usize).kind {
            DomainKind::Bool => 0,
            DomainKind::Range(low, _) => *low,
            DomainKind::Words(_) => 0,
        }
    }

    /// How many values the domain of this number has.
    pub fn size_of(self, domain: u32) -> u32
        requires { domain < length self.domains.now }
        ensures { result ≡ size_of self.entry.domains.now domain }
    {
        match &self.domains.get(domain as usize).kind {
            DomainKind::Bool => 2,
            DomainKind::Range(low, high) => (*high - *low + 1) as u32,
            DomainKind::Words(words) => words.len() as u32,
        }
    }

    /// How many cells there are.
    pub fn cell_count(self) -> u32
        ensures { result ≡ length (cells_of (declared_world self.entry)) }
    {
        self.rows_before(self.items.len()) * self.instants
    }

    /// The number of the cell of an item at arguments, given by their indexes, and at an instant. It goes over the items once.
    pub fn cell_of(self, item: u32, args: &[u32], instant: u32) -> u32
        requires item_in { item < length self.items.now }
        requires args_in { IsTrue (takes (declared_world self) item args.now) }
        requires instant_in { instant < self.instants }
        ensures { slice_get (cells_of (declared_world self.entry)) result ≡ Some (the_cell item args.now instant) }
    {
        let domains = self.items.get(item as usize).args.as_slice();
        let row = self.rows_before(item as usize) + self.number_of_tuple(domains, args);
        row * self.instants + instant
    }

    /// What the cell of this number is of. Behind the first `arity` places of `args` stand zeros. It goes over the items once.
    pub fn cell_parts(self, cell: u32) -> CellParts
        requires { cell < length (cells_of (declared_world self)) }
        ensures is { slice_get (cells_of (declared_world self.entry)) cell
            ≡ Some (the_cell result.item (take result.arity result.args) result.instant) }
        ensures few { result.arity ≤ 4 }
        ensures rest { (k : ℕ) → result.arity ≤ k → slice_index result.args k ≡ 0 }
    {
        let (item, tuple) = self.place_of_row(cell / self.instants);
        let domains = self.items.get(item as usize).args.as_slice();
        CellParts {
            item,
            args: self.tuple_of_number(domains, tuple),
            arity: domains.len() as u32,
            instant: cell % self.instants,
        }
    }

    /// How many values the cell of this number can have.
    pub fn cell_size(self, cell: u32) -> u32
        requires { cell < length (cells_of (declared_world self)) }
        ensures { option_map (cell_size (declared_world self.entry)) (slice_get (cells_of (declared_world self.entry)) cell) ≡ Some result }
    {
        let parts = self.cell_parts(cell);
        self.size_of(self.items.get(parts.item as usize).value)
    }

    /// How many tuples these argument domains have.
    fn tuple_count(self, domains: &[u32]) -> u32
        requires named { IsTrue (list_all (λ d. nat_lt d (length self.domains.now)) domains.now) }
        requires few { length (tuples self.domains.now domains.now) ≤ 1024 }
        ensures { result ≡ length (tuples self.entry.domains.now domains.now) }
    {
        let mut count = 1;
        for domain in domains {
            count *= self.size_of(*domain);
        }
        count
    }

    /// How many rows the items before this number have.
    fn rows_before(self, number: usize) -> u32
        requires { number ≤ length self.items.now }
        ensures { result ≡ sum_by (λ item. length (tuples self.entry.domains.now item.args)) (take number self.entry.items.now) }
    {
        let mut rows = 0;
        for item in &self.items.as_slice()[..number] {
            rows += self.tuple_count(item.args.as_slice());
        }
        rows
    }

    /// The number of a tuple among those of its argument domains.
    fn number_of_tuple(self, domains: &[u32], args: &[u32]) -> u32
        requires named { IsTrue (list_all (λ d. nat_lt d (length self.domains.now)) domains.now) }
        requires few { length (tuples self.domains.now domains.now) ≤ 1024 }
        requires args_in { IsTrue (are_indexes self.domains.now domains.now args.now) }
        ensures { slice_get (tuples self.entry.domains.now domains.now) result ≡ Some args.now }
    {
        let mut number = 0;
        for place in 0..domains.len() {
            number = number * self.size_of(domains[place]) + args[place];
        }
        number
    }

    /// The tuple of this number among those of the argument domains, with zeros behind it.
    fn tuple_of_number(self, domains: &[u32], number: u32) -> [u32; 4]
        requires named { IsTrue (list_all (λ d. nat_lt d (length self.domains.now)) domains.now) }
        requires few { length (tuples self.domains.now domains.now) ≤ 1024 }
        requires number_in { number < length (tuples self.domains.now domains.now) }
        requires short { length domains.now ≤ 4 }
        ensures is { slice_get (tuples self.entry.domains.now domains.now) number ≡ Some (take (length domains.now) result) }
        ensures rest { (k : ℕ) → length domains.now ≤ k → slice_index result k ≡ 0 }
    {
        let mut args = [0; 4];
        let mut left = number;
        let mut count = self.tuple_count(domains);
        for place in 0..domains.len() {
            count /= self.size_of(domains[place]);
            args[place] = left / count;
            left %= count;
        }
        args
    }

    /// The item that the row of this number is of, and the number of the row's tuple among those of the item.
    fn place_of_row(self, row: u32) -> (u32, u32)
        requires { row < length (rows_of (declared_world self)) }
        ensures { (item : Item) × (slice_get self.entry.items.now result.0 ≡ Some item) × (result.1 < length (tuples self.entry.domains.now item.args))
            × (row ≡ sum_by (λ item. length (tuples self.entry.domains.now item.args)) (take result.0 self.entry.items.now) + result.1) }
    {
        let mut left = row;
        for (number, item) in self.items.as_slice().iter().enumerate() {
            let rows = self.tuple_count(item.args.as_slice());
            if left < rows {
                return (number as u32, left);
            }
            left -= rows;
        }
        unreachable!()
    }
}

impl Spec {
    /// What the specification declares.
    pub fn declarations(&self) -> Declarations<'_>
        ensures instants { result.instants ≡ self.now.instants }
        ensures domains { result.domains.now ≡ self.now.domains }
        ensures items { result.items.now ≡ self.now.items }
    {
        Declarations {
            instants: self.instants,
            domains: &self.domains,
            items: &self.items,
        }
    }
}
