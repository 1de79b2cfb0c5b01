// An axis of a grid: the index of a coordinate, the edges of an index, and on which side of a boundary a coordinate is.
ghost use Rattle.std.specs.Prelude.{◌≡◌};
ghost use Rattle.grid.specs.Axes.{x_axis, y_axis, scaled_on, index_on, low_on, high_on, near_whole, side_of, side_on};

use crate::{Axis, Grid, Side};

impl Grid {
    pub fn x_axis(self) -> Axis
        ensures { result ≡ x_axis self }
    {
        Axis {
            low: self.min_x,
            size: self.cell_width,
            count: self.cols,
        }
    }

    pub fn y_axis(self) -> Axis
        ensures { result ≡ y_axis self }
    {
        Axis {
            low: self.min_y,
            size: self.cell_height,
            count: self.rows,
        }
    }
}

fn near_whole(v: f64) -> bool
    ensures { result ≡ near_whole v }
{
    numbers::order::magnitude(v - numbers::away::round_half_away(v)) <= 1e-12
}

// The value is seldom near, so the second rounding costs little.
fn side_of(v: f64) -> Side
    ensures { result ≡ side_of v }
{
    if near_whole(v) {
        if v < numbers::away::round_half_away(v) {
            return Side::Below;
        }
        return Side::Above;
    }
    Side::Off
}

impl Axis {
    pub fn scaled(self, v: f64) -> f64
        ensures { result ≡ scaled_on self v }
    {
        (v - self.low) / self.size
    }

    pub fn index(self, v: f64) -> u32
        ensures { result ≡ index_on self v }
    {
        numbers::floor::clamped_floor(self.scaled(v), self.count)
    }

    pub fn low_edge(self, i: u32) -> f64
        ensures { result ≡ low_on self i }
    {
        self.low + i as f64 * self.size
    }

    pub fn high_edge(self, i: u32) -> f64
        ensures { result ≡ high_on self i }
    {
        self.low_edge(i) + self.size
    }

    pub fn side(self, v: f64) -> Side
        ensures { result ≡ side_on self v }
    {
        side_of(self.scaled(v))
    }
}
