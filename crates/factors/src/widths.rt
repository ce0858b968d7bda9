// Lane and shoulder: values by column that change with the traffic, and the factor of the related crashes.
ghost use Rattle.std.specs.Prelude.{◌≡◌, ◌+◌, ◌*◌, ◌≤◌, ◌<◌, get_or};
ghost use Rattle.model.specs.Widths.{lane_columns, lane_column, lane_value, none, at_traffic, of_related, width_unit};
ghost use Rattle.model.specs.Widths.{width_at, type_at, shoulder_value, type_value, shoulder_unit};
ghost use Rattle.model.specs.FactorBounds.{ColumnWithin, MeansWithin};
ghost use Rattle.bracket.specs.Ratio.{coded};
ghost use Rattle.factors.specs.Column.{column_of};
ghost use Rattle.factors.specs.Neighbours.{Beside, AtBoth};

use bracket::Ratio;

// A column, in hundred-millionths: the value below A = 400, what each vehicle above 400 adds to it or takes from it, and the
// value above 2,000.
#[derive(Clone, Copy)]
struct Column {
    light: u64,
    adds: u64,
    takes: u64,
    heavy: u64,
}

// 9 feet or less, 10, 11, 12 or more.
const LANE_COLUMNS: [Column; 4] = [
    Column {
        light: 105_000_000,
        adds: 28_100,
        takes: 0,
        heavy: 150_000_000,
    },
    Column {
        light: 102_000_000,
        adds: 17_500,
        takes: 0,
        heavy: 130_000_000,
    },
    Column {
        light: 101_000_000,
        adds: 2_500,
        takes: 0,
        heavy: 105_000_000,
    },
    Column {
        light: 100_000_000,
        adds: 0,
        takes: 0,
        heavy: 100_000_000,
    },
];

// 0 feet, 2, 4, 6, 8 or more.
const SHOULDER_COLUMNS: [Column; 5] = [
    Column {
        light: 110_000_000,
        adds: 25_000,
        takes: 0,
        heavy: 150_000_000,
    },
    Column {
        light: 107_000_000,
        adds: 14_300,
        takes: 0,
        heavy: 130_000_000,
    },
    Column {
        light: 102_000_000,
        adds: 8_125,
        takes: 0,
        heavy: 115_000_000,
    },
    Column {
        light: 100_000_000,
        adds: 0,
        takes: 0,
        heavy: 100_000_000,
    },
    Column {
        light: 98_000_000,
        adds: 0,
        takes: 6_875,
        heavy: 87_000_000,
    },
];

// Paved, gravel, composite and turf at the shoulder's columns, in hundredths.
const TYPE_MULTIPLIERS: [[u64; 5]; 4] = [
    [100, 100, 100, 100, 100],
    [100, 101, 101, 102, 102],
    [100, 102, 103, 104, 106],
    [100, 103, 105, 108, 111],
];

// Width values are in hundred-millionths.
const WIDTH_UNIT: u64 = 100_000_000;

// Of twice a width's value times twice a type's.
const SHOULDER_UNIT: u64 = 40_000_000_000;

// A column's value at a traffic: one rule for lane and shoulder.
fn at_traffic(column: Column, traffic: u64) -> u64
    requires { ColumnWithin (column_of column) }
    ensures { result ≡ at_traffic (column_of column) traffic }
{
    if traffic < 400 {
        return column.light;
    }
    if traffic <= 2000 {
        let above = traffic - 400;
        return column.light + column.adds * above - column.takes * above;
    }
    column.heavy
}

// The place of a lane's column.
fn lane_place(feet: u64) -> u64
    ensures { result ≡ lane_column feet }
{
    feet.saturating_sub(9).min(3)
}

// The factor 1 + share (r - 1), of r / unit and a share in thousandths.
fn of_related(share: u64, r: u64, unit: u64) -> Ratio
    requires { (share ≤ 1000) × (0 < unit) × (unit ≤ shoulder_unit) × (2 * r ≤ 3 * unit) }
    ensures { result ≡ coded (of_related share r unit) }
{
    Ratio {
        num: (1000 - share) * unit + share * r,
        den: 1000 * unit,
    }
}

// The lane's column.
fn lane_column(feet: u64) -> Column
    ensures { column_of result ≡ get_or lane_columns (lane_column feet) none }
{
    LANE_COLUMNS[lane_place(feet) as usize]
}

// The lane's factor, for the share of crashes that it bears on.
pub fn lane(share: u64, feet: u64, traffic: u64) -> Ratio
    requires { share ≤ 1000 }
    ensures { result ≡ coded (of_related share (lane_value feet traffic) width_unit) }
{
    of_related(share, at_traffic(lane_column(feet), traffic), WIDTH_UNIT)
}

// Of a shoulder's two neighbours, the places of their columns, their widths or their types.
#[derive(Clone, Copy)]
struct Neighbours {
    below: u64,
    above: u64,
}

// The columns that a shoulder stands between: the same one for an even width, and from 8 feet on the last.
fn columns_of(feet: u64) -> Neighbours
    ensures { Beside feet result }
{
    if feet >= 8 {
        return Neighbours { below: 4, above: 4 };
    }
    Neighbours {
        below: feet / 2,
        above: (feet + 1) / 2,
    }
}

// The widths' values at two columns, from a table that is written out once.
fn widths_of(columns: Neighbours, traffic: u64) -> Neighbours
    requires { (columns.below < 5) × (columns.above < 5) }
    ensures { AtBoth (width_at traffic) columns result }
{
    let table = SHOULDER_COLUMNS;
    Neighbours {
        below: at_traffic(table[columns.below as usize], traffic),
        above: at_traffic(table[columns.above as usize], traffic),
    }
}

// A type's multipliers at two columns, in hundredths.
fn types_of(surface: u64, columns: Neighbours) -> Neighbours
    requires { (surface ≤ 3) × (columns.below < 5) × (columns.above < 5) }
    ensures { AtBoth (type_at surface) columns result }
{
    let table = TYPE_MULTIPLIERS;
    Neighbours {
        below: table[surface as usize][columns.below as usize],
        above: table[surface as usize][columns.above as usize],
    }
}

// The mean of two widths times the mean of two types, each mean twice.
fn product_of_means(width_below: u64, width_above: u64, type_below: u64, type_above: u64) -> u64
    requires { MeansWithin (width_below + width_above) (type_below + type_above) }
    ensures { result ≡ (width_below + width_above) * (type_below + type_above) }
{
    (width_below + width_above) * (type_below + type_above)
}

// The shoulder's factor, of its width's value times its type's.
pub fn shoulder(share: u64, feet: u64, surface: u64, traffic: u64) -> Ratio
    requires { (share ≤ 1000) × (surface ≤ 3) }
    ensures { result ≡ coded (of_related share (shoulder_value feet traffic * type_value surface feet) shoulder_unit) }
{
    let columns = columns_of(feet);
    let widths = widths_of(columns, traffic);
    let types = types_of(surface, columns);
    let value = product_of_means(widths.below, widths.above, types.below, types.above);
    of_related(share, value, SHOULDER_UNIT)
}
