//! Tables of the combinations of a few rows.

ghost use Rattle.std.specs.Prelude.{ℕ, ◌≡◌, ◌+◌, ◌*◌, ◌^◌, ◌<◌, ◌≤◌, None, length, map, slice_index, slice_index_or};
ghost use Rattle.std.specs.Prelude.{slice_set, [], All};
ghost use Rattle.axe_field.specs.NumberFields.{number_field};
ghost use Rattle.axe_field.specs.Order.{IsElement, order_number};
ghost use Rattle.axe_plane.specs.Planes.{prime_of_plane, digits_of, IsPlane};
ghost use Rattle.axe_plane.specs.Tables.{prime_of_table, entries_of_table, plane_at, IsTable};
ghost use Rattle.axe_row.specs.ByteDigits.{digits_per_byte};
ghost use Rattle.axe_row.specs.Combinations.{most_combined, zero_table, combination_at, row_with_four, AreOfOneKind};
ghost use Rattle.axe_row.specs.Combinations.{piece_number, Combines, IsRowFor, IsTableOfRows};
ghost use Rattle.axe_row.specs.Operations.{row_with_multiple, sum_with_multiple};
ghost use Rattle.axe_bits.specs.Combinations.{digits_with_multiples};
ghost use Rattle.axe_row.specs.Planes.{AreAddable};
ghost use Rattle.axe_row.specs.Refusals.{Answers};
ghost use Rattle.axe_row.specs.Rows.{IsRow};

use crate::higher::Higher;
use crate::planes::digits_in_plane;
use crate::{Refusal, Row};
use axe_field::Field;
use axe_plane::{Plane, PlaneTable};
pub use row_sum::RowSum;
use std::alloc::Global;
use std::marker::Model;

mod row_sum;

/// A table of rows over a field of q elements, to hold all combinations of up to `size` rows of one length: q^size
/// rows, the first always zero. Each plane of its rows stands in one piece of memory with that of the others.
#[derive(Drop)]
pub struct Combos {
    field: Field,
    size: usize,
    len: usize,
    constant: PlaneTable,
    linear: PlaneTable,
    quadratic: PlaneTable,
}

impl Model for Combos {
    ghost use Rattle.axe_plane.specs.Tables.{entries_of_table};
    ghost use Rattle.axe_row.specs.Combinations.{CombosValue};
    ghost use Rattle.axe_row.specs.PlaneTables.{rows_of_tables, ArePlaneTables};

    ghost Value = { CombosValue };

    ghost view = { λ a. record {
      order = a.field;
      size = a.size;
      len = a.len;
      rows = rows_of_tables a.field (entries_of_table a.constant) (entries_of_table a.linear)
          (entries_of_table a.quadratic);
    } };

    ghost invariant = { λ a. ArePlaneTables a.field a.size a.len a.constant a.linear a.quadratic };
}

/// How many digits in base q a byte has room for, where q is the order of the field: the greatest `m` with
/// `q^m <= 256`. So many elements stand in a byte, and so many rows a table combines at most.
pub fn digits_per_byte(field: &Field) -> usize
    ensures value { result ≡ digits_per_byte field.now }
    ensures some { 1 ≤ result }
{
    match field.order() {
        2 => 8,
        3 => 5,
        4 => 4,
        5 => 3,
        _ => 2,
    }
}

impl Combos {
    /// The table of zeros for combinations of up to `size` rows of `len` entries.
    pub fn new(alloc: Global, field: Field, len: usize, size: usize) -> Result<Combos, Refusal>
        requires some { 1 ≤ size }
        requires size { size ≤ most_combined field }
        ensures zeros { Answers None (λ table. table ≡ zero_table field size len) result }
        ensures well_formed { Answers None IsTableOfRows result }
    {
        let (prime, count) = (field.prime(), table_rows(&field, size));
        let constant = PlaneTable::zero(alloc, prime, count, len)?;
        let linear = PlaneTable::zero(alloc, prime, count, digits_in_plane(&field, 1, len))?;
        let quadratic = PlaneTable::zero(alloc, prime, count, digits_in_plane(&field, 2, len))?;
        Ok(Combos {
            field,
            size,
            len,
            constant,
            linear,
            quadratic,
        })
    }

    /// Makes the first q^s rows of the table the combinations of s rows: row i is the one whose coefficients are the
    /// digits of i in base q, most significant first. The rows, one at least and `size` at most, are over the table's
    /// field and have as many entries as its rows. What the later rows of the table are is left open. It takes no
    /// memory.
    pub fn fill(&mut self, rows: &[Row])
        requires some { 1 ≤ length rows.now }
        requires room { length rows.now ≤ self.old.size }
        requires field { All (λ row. row.order ≡ self.old.order) rows.now }
        requires fits { All (λ row. length row.entries ≡ self.old.len) rows.now }
        ensures combines { Combines (map (λ row. row.entries) rows.now) self.new }
        ensures kind { AreOfOneKind self.new self.old }
        ensures well_formed { IsTableOfRows self.new }
    {
        let order = usize::from(self.field().order());
        let mut filled = 1;
        for at in 0..rows.len() {
            self.add_multiples_of(filled, &rows[rows.len() - 1 - at]);
            filled *= order;
        }
    }

    /// Adds a multiple of a row of the table to a row over its field and of as many entries: each entry d becomes
    /// d + c s, where c is the scalar and s the entry of the table's row.
    pub fn add_to(&self, index: usize, scalar: u8, row: &mut Row)
        requires fits { IsRowFor row.old self.now index }
        requires element { IsElement row.old.order scalar }
        ensures sum { row.new ≡ row_with_multiple row.old scalar (combination_at self.now index) }
        ensures as_long { length row.new.entries ≡ length row.old.entries }
        ensures well_formed { IsRow row.new }
    {
        row.add_from_table(self, index, scalar)
    }

    /// The field of the rows.
    pub fn field(&self) -> &Field
        ensures order { result.now ≡ self.now.order }
        ensures well_formed { IsTableOfRows self.now }
    {
        &self.field
    }
}

impl Combos {
    /// Makes the rows of the table from number `filled` on, as many as are q times `filled` with those before, the sums
    /// of the rows before and of the multiples of another row: row d `filled` + i, for i below `filled`, becomes row i
    /// plus d times the other row, where d is an element other than 0.
    fn add_multiples_of(&mut self, filled: usize, row: &Row)
        requires some { 1 ≤ filled }
        requires room { filled * order_number self.old.order ≤ length self.old.rows }
        requires field { row.now.order ≡ self.old.order }
        requires fits { length row.now.entries ≡ self.old.len }
        requires table { IsTableOfRows self.old }
        ensures kept { (i : ℕ) → i < filled → slice_index_or self.new.rows i [] ≡ slice_index_or self.old.rows i [] }
        ensures sums { (d i : ℕ) → d < order_number self.old.order → i < filled →
            slice_index_or self.new.rows (d * filled + i) []
            ≡ sum_with_multiple (number_field self.old.order) (slice_index_or self.old.rows i []) d row.now.entries }
        ensures kind { AreOfOneKind self.new self.old }
        ensures well_formed { IsTableOfRows self.new }
        ensures row { IsRow row.now }
    {
        for scalar in 1..row.field().order() {
            self.add_multiple_of(filled, scalar, row);
        }
    }

    /// Makes the rows of the table from number c `filled` on, as many as `filled`, the sums of its first `filled` rows
    /// and of c times another row, where c is the scalar, an element other than 0.
    fn add_multiple_of(&mut self, filled: usize, scalar: u8, row: &Row)
        requires some { 1 ≤ filled }
        requires nonzero { 1 ≤ scalar }
        requires element { IsElement self.old.order scalar }
        requires room { filled * order_number self.old.order ≤ length self.old.rows }
        requires field { row.now.order ≡ self.old.order }
        requires fits { length row.now.entries ≡ self.old.len }
        requires table { IsTableOfRows self.old }
        requires row { IsRow row.now }
        ensures kept { (x : ℕ) → x < scalar * filled →
            slice_index_or self.new.rows x [] ≡ slice_index_or self.old.rows x [] }
        ensures sums { (i : ℕ) → i < filled →
            let earlier = slice_index_or self.old.rows i [] in
            slice_index_or self.new.rows (scalar * filled + i) []
            ≡ sum_with_multiple (number_field self.old.order) earlier scalar row.now.entries }
        ensures kind { AreOfOneKind self.new self.old }
        ensures well_formed { IsTableOfRows self.new }
    {
        // row 0 is zero, so that the sum with it is c times the other row
        let start = usize::from(scalar) * filled;
        self.put_sum(start, 0, scalar, row);
        self.put_sums(start, filled);
    }

    /// Makes row `start` + i of the table, for each i from 1 on that is below `count`, the sum of row i and row `start`.
    fn put_sums(&mut self, start: usize, count: usize)
        requires some { 1 ≤ count }
        requires earlier { count ≤ start }
        requires within { start + count ≤ length self.old.rows }
        requires table { IsTableOfRows self.old }
        ensures kept { (x : ℕ) → x ≤ start →
            slice_index_or self.new.rows x [] ≡ slice_index_or self.old.rows x [] }
        ensures sums { (i : ℕ) → 1 ≤ i → i < count →
            let earlier = slice_index_or self.old.rows i [] in
            slice_index_or self.new.rows (start + i) []
            ≡ sum_with_multiple (number_field self.old.order) earlier 1 (slice_index_or self.old.rows start []) }
        ensures kind { AreOfOneKind self.new self.old }
        ensures well_formed { IsTableOfRows self.new }
    {
        if count == 1 {
            return;
        }
        let degree = self.field.degree();
        self.constant.put_sums(start, count);
        if degree == 1 {
            return;
        }
        self.linear.put_sums(start, count);
        if degree == 2 {
            return;
        }
        self.quadratic.put_sums(start, count);
    }

    /// Makes a row of the table an earlier row of it plus a multiple of another row.
    fn put_sum(&mut self, to: usize, from: usize, scalar: u8, row: &Row)
        requires earlier { from < to }
        requires within { to < length self.old.rows }
        requires field { row.now.order ≡ self.old.order }
        requires fits { length row.now.entries ≡ self.old.len }
        requires element { IsElement self.old.order scalar }
        ensures sum { let earlier = slice_index_or self.old.rows from [] in
            let sum = sum_with_multiple (number_field self.old.order) earlier scalar row.now.entries in
            self.new ≡ record self.old { rows = slice_set self.old.rows to sum } }
        ensures well_formed { IsTableOfRows self.new }
    {
        let constant = &row.constant;
        let Some(higher) = &row.higher else {
            self.constant.put_sum(to, from, scalar, constant);
            return;
        };
        let (linear, quadratic) = (&higher.linear, &higher.quadratic);
        let m = self.field.plane_matrix(scalar);
        put_multiples(
            &mut self.constant,
            to,
            from,
            [m[0][0], m[1][0], m[2][0]],
            constant,
            linear,
            quadratic,
        );
        put_multiples(
            &mut self.linear,
            to,
            from,
            [m[0][1], m[1][1], m[2][1]],
            constant,
            linear,
            quadratic,
        );
        put_multiples(
            &mut self.quadratic,
            to,
            from,
            [m[0][2], m[1][2], m[2][2]],
            constant,
            linear,
            quadratic,
        );
    }
}

impl Row {
    /// Adds a row of each of four tables over this row's field, whose rows are as long as it, in one pass. The numbers of
    /// the rows stand in the tables' order.
    pub fn add_four(&mut self, indices: [usize; 4], a: &Combos, b: &Combos, c: &Combos, d: &Combos)
        requires a { IsRowFor self.old a.now (slice_index indices 0) }
        requires b { IsRowFor self.old b.now (slice_index indices 1) }
        requires c { IsRowFor self.old c.now (slice_index indices 2) }
        requires d { IsRowFor self.old d.now (slice_index indices 3) }
        ensures sum { self.new ≡ row_with_four self.old
            (combination_at a.now (slice_index indices 0)) (combination_at b.now (slice_index indices 1))
            (combination_at c.now (slice_index indices 2)) (combination_at d.now (slice_index indices 3)) }
        ensures as_long { length self.new.entries ≡ length self.old.entries }
        ensures well_formed { IsRow self.new }
    {
        self.constant.add_four_entries(indices, &a.constant, &b.constant, &c.constant, &d.constant);
        let Some(higher) = &mut self.higher else {
            return;
        };
        let Higher { linear, quadratic } = &mut **higher;
        linear.add_four_entries(indices, &a.linear, &b.linear, &c.linear, &d.linear);
        quadratic.add_four_entries(
            indices,
            &a.quadratic,
            &b.quadratic,
            &c.quadratic,
            &d.quadratic,
        );
    }

    /// Adds, for each of four pieces of another row over this row's field, the row of a table that the piece names: the
    /// entries of the piece are the digits of its number in base q, most significant first, where q is the order of the
    /// field. The pieces have `size` entries each, or those that there are, and stand one after another from an index
    /// on. The tables' rows are as long as this row.
    #[inline(always)]
    pub fn add_pieces(
        &mut self,
        of: &Row,
        size: usize,
        at: usize,
        a: &Combos,
        b: &Combos,
        c: &Combos,
        d: &Combos,
    )
        requires short { size ≤ 8 }
        requires counted { at + 4 * size < 2 ^ 64 }
        requires field { of.now.order ≡ self.old.order }
        requires a { IsRowFor self.old a.now (piece_number of.now 1 size at) }
        requires b { IsRowFor self.old b.now (piece_number of.now 1 size (at + size)) }
        requires c { IsRowFor self.old c.now (piece_number of.now 1 size (at + 2 * size)) }
        requires d { IsRowFor self.old d.now (piece_number of.now 1 size (at + 3 * size)) }
        ensures sum { self.new ≡ row_with_four self.old
            (combination_at a.now (piece_number of.now 1 size at))
            (combination_at b.now (piece_number of.now 1 size (at + size)))
            (combination_at c.now (piece_number of.now 1 size (at + 2 * size)))
            (combination_at d.now (piece_number of.now 1 size (at + 3 * size))) }
        ensures as_long { length self.new.entries ≡ length self.old.entries }
        ensures well_formed { IsRow self.new }
    {
        let Some(_) = &self.higher else {
            let order = usize::from(self.field.order());
            let (constant, of) = (&mut self.constant, &of.constant);
            constant.add_pieces(
                of,
                order,
                size,
                at,
                &a.constant,
                &b.constant,
                &c.constant,
                &d.constant,
            );
            return;
        };
        let numbers = of.piece_numbers(1, size, at);
        self.add_four(numbers, a, b, c, d);
    }

    /// Adds a multiple of a row of a table.
    fn add_from_table(&mut self, table: &Combos, index: usize, scalar: u8)
        requires fits { IsRowFor self.old table.now index }
        requires element { IsElement self.old.order scalar }
        ensures sum { self.new ≡ row_with_multiple self.old scalar (combination_at table.now index) }
        ensures well_formed { IsRow self.new }
    {
        let m = self.field.plane_matrix(scalar);
        let to_constant = [m[0][0], m[1][0], m[2][0]];
        add_entries(
            &mut self.constant,
            to_constant,
            index,
            &table.constant,
            &table.linear,
            &table.quadratic,
        );
        let Some(higher) = &mut self.higher else {
            return;
        };
        higher.add_entries(&m, index, &table.constant, &table.linear, &table.quadratic);
    }
}

/// How many rows a table has: q^size, where q is the order of the field.
fn table_rows(field: &Field, size: usize) -> usize
    requires { size ≤ most_combined field.now }
    ensures { result ≡ order_number field.now ^ size }
{
    usize::from(field.order()).pow(size as u32)
}

/// Makes an entry of a table of planes an earlier one plus multiples of three planes.
fn put_multiples(
    table: &mut PlaneTable,
    to: usize,
    from: usize,
    factors: [u8; 3],
    constant: &Plane,
    linear: &Plane,
    quadratic: &Plane,
)
    requires to { to < length (entries_of_table table.old) }
    requires earlier { from < to }
    requires addable { AreAddable (plane_at table.old from) factors constant.now linear.now quadratic.now }
    ensures { IsTable (prime_of_table table.old) (slice_set (entries_of_table table.old) to
        (digits_with_multiples (prime_of_table table.old) (digits_of (plane_at table.old from)) factors
        (digits_of constant.now) (digits_of linear.now) (digits_of quadratic.now))) table.new }
{
    table.put_sum(to, from, factors[0], constant);
    table.add_to_entry(to, factors[1], linear);
    table.add_to_entry(to, factors[2], quadratic);
}

/// Adds multiples of an entry of each of three tables of planes to a plane.
pub(crate) fn add_entries(
    plane: &mut Plane,
    factors: [u8; 3],
    index: usize,
    constant: &PlaneTable,
    linear: &PlaneTable,
    quadratic: &PlaneTable,
)
    requires constant { index < length (entries_of_table constant.now) }
    requires linear { index < length (entries_of_table linear.now) }
    requires quadratic { index < length (entries_of_table quadratic.now) }
    requires addable { AreAddable plane.old factors (plane_at constant.now index) (plane_at linear.now index)
        (plane_at quadratic.now index) }
    ensures { IsPlane (prime_of_plane plane.old)
        (digits_with_multiples (prime_of_plane plane.old) (digits_of plane.old) factors
        (digits_of (plane_at constant.now index)) (digits_of (plane_at linear.now index))
        (digits_of (plane_at quadratic.now index))) plane.new }
{
    constant.add_entry(index, factors[0], plane);
    linear.add_entry(index, factors[1], plane);
    quadratic.add_entry(index, factors[2], plane);
}
