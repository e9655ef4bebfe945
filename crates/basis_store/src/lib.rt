// The store's room, and a new eta column, written into its unused tail. From minilp 0.2.2, src/solver.rs,
// push_eta_matrix and EtaMatrices, Apache-2.0, changed: the store is sections of the lent arrays.
#![tactic(auto)]

ghost use Rattle.std.specs.Prelude.{◌≡◌, Bool, List, [], ◌≤◌, length, Float};
ghost use Rattle.doubles.specs.Limits.{places, eta_columns, eta_entries};
ghost use Rattle.doubles.specs.Lists.{◌#◌};
ghost use Rattle.sparse.specs.Scattered.{sv, Within};
ghost use Rattle.rules.specs.Basis.{eta_entry, tail, write_column, eta_fits};
ghost use Rattle.state.specs.Packed.{packed, state_at, Sized, kept_at};
ghost use Rattle.basis_store.specs.Room.{Room, column_pushed};

// 01: "Eta entry (ours): 1 - 1/pivot at the leaving row, else coefficient/pivot".
pub fn eta_entry(row: usize, pivot: f64, r: usize, x: f64) -> f64
    ensures { result ≡ eta_entry row pivot r x }
{
    if r == row {
        1.0 - 1.0 / pivot
    } else {
        x / pivot
    }
}

// The entries of a new column, in its listed order, over the front of the tail that is lent. It reads no marks.
fn write_column(
    out_rows: &mut [usize],
    out_coeffs: &mut [f64],
    values: &[f64; doubles::PLACES],
    list: &[usize; doubles::PLACES],
    count: usize,
    row: usize,
    pivot: f64,
)
    requires count_in_bounds { (count ≤ length out_rows.old) × (count ≤ length out_coeffs.old) }
    requires count_le_places { (count ≤ places) × Within places count list.now }
    ensures { (m : List Bool) → tail out_rows.new out_coeffs.new ≡ write_column
        (sv values.now m list.now count) row pivot
        (tail out_rows.old out_coeffs.old) }
{
    for k in 0..count {
        let r = list[k];
        out_rows[k] = r;
        out_coeffs[k] = eta_entry(row, pivot, r, values[r]);
    }
}

// 01: "The new column goes into the unused tail of the store": as column n, after the entries of those before it. The
// tail is lent on from the middle of both arrays.
pub fn push_eta(
    numbers: &mut [usize],
    doubles: &mut [f64],
    n: usize,
    values: &[f64; doubles::PLACES],
    list: &[usize; doubles::PLACES],
    count: usize,
    row: usize,
    pivot: f64,
)
    requires sized { Sized numbers.old doubles.old × Room (packed numbers.old doubles.old).etas n count }
    requires count_le_places { (count ≤ places) × Within places count list.now }
    ensures { (m : List Bool) → packed numbers.new doubles.new ≡ column_pushed
        (sv values.now m list.now count) row pivot n
        (packed numbers.old doubles.old) }
{
    let used = numbers[state::ETA_STARTS + n];
    write_column(
        &mut numbers[state::ETA_ROWS + used..state::ETA_ROWS_END],
        &mut doubles[state::ETA_COEFFS + used..state::ETA_COEFFS_END],
        values,
        list,
        count,
        row,
        pivot,
    );
    numbers[state::ETA_LEAVING + n] = row;
    numbers[state::ETA_STARTS + (n + 1)] = used + count;
}

// Whether the next eta column fits the room left; where it doesn't, the new basis is factored.
pub fn eta_fits(numbers: &[usize], at: state::Tally, count: usize) -> bool
    requires numbers_len { (length numbers.now ≡ kept_at) × (at.eta_count ≤ eta_columns) × (count ≤ places) }
    requires eta_count_bound { (packed numbers.now []).etas.starts # at.eta_count ≤ eta_entries }
    ensures { (D : List Float) → result ≡ eta_fits (state_at numbers.now D at) count }
{
    let columns = at.eta_count;
    let used = numbers[state::ETA_STARTS + columns];
    (columns < doubles::ETA_COLUMNS) & (used + count <= doubles::ETA_ENTRIES)
}
