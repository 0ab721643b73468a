// Sweeps over axis 1, 2, 3 and again, until three axes in succession fill nothing. A sweep passes over the lines that nothing has
// changed on since their last visit: a line that was left then is left now.
ghost use Rattle.std.specs.Prelude.{◌+◌, ◌*◌, ◌%◌, ◌≤◌, ◌<◌};
ghost use Rattle.shape.specs.Shapes.{IsAxis};
ghost use Rattle.field.specs.Field.{reduction};
ghost use Rattle.peel.specs.Peel.{Peeled};
ghost use Rattle.peel.specs.Inner.Sweep.{Lends, AxisStops, LinesStop, Filled, Calm, Visited};

use crate::on_line::Progress;
use crate::state::Peeling;
use crate::{on_line, wake};

impl<'a> Peeling<'a> {
    pub(crate) fn sweeps(&mut self)
        requires { Calm self.old.shape self.old.flags.now self.old.marks }
        ensures lends { Lends self.old self.new }
        ensures peeled { Peeled reduction self.old.shape self.old.cube.now self.old.flags.now self.new.cube.now self.new.flags.now }
    {
        let mut axis = 1;
        let mut idle: usize = 0;
        // No range of numbers: a sweep that fills a cell begins the count anew.
        while idle < 3 {
            let filled = self.sweep(axis);
            idle = if filled == 0 { idle + 1 } else { 0 };
            axis = axis % 3 + 1;
        }
    }

    // One sweep: each line of an axis that is not quiet, by the cell number of its first cell; answers how many cells it filled.
    fn sweep(&mut self, axis: usize) -> usize
        requires calm { Calm self.old.shape self.old.flags.now self.old.marks }
        requires le_axis { IsAxis axis }
        ensures lends { Lends self.old self.new }
        ensures filled { Filled reduction self.old.shape (λ fs. AxisStops self.old.shape fs axis) self.old.cube.now self.old.flags.now self.new.cube.now self.new.flags.now result }
        ensures calm_2 { Calm self.old.shape self.new.flags.now self.new.marks }
    {
        let groups = wake::groups(self.shape, axis);
        let mut filled = 0;
        let mut from = 0;
        // No range of numbers: groups that are quiet are passed over, and a visit wakes others.
        while let Some(g) = wake::next_awake(&self.marks, axis, from, groups) {
            filled += self.group(axis, g);
            from = g + 1;
        }
        filled
    }

    // A group is marked quiet before its awake lines are visited: a cell filled on one of them wakes it again.
    fn group(&mut self, axis: usize, g: usize) -> usize
        requires calm { Calm self.old.shape self.old.flags.now self.old.marks }
        requires le_axis { IsAxis axis × (g < 8192) }
        ensures lends { Lends self.old self.new }
        ensures filled { Filled reduction self.old.shape (LinesStop self.old.shape axis (g * 8) (g * 8 + 8)) self.old.cube.now self.old.flags.now self.new.cube.now self.new.flags.now result }
        ensures calm_2 { Calm self.old.shape self.new.flags.now self.new.marks }
    {
        let at = wake::mark_at(axis, g);
        let mark = usize::from(self.marks[at]);
        self.marks[at] = wake::QUIET;
        let from = g * 8 + mark / 8;
        let end = g * 8 + (8 - mark % 8);
        self.visit_lines(axis, from, end)
    }

    // Visits the lines of an axis from one on and below another, as far as the axis has them.
    fn visit_lines(&mut self, axis: usize, from: usize, end: usize) -> usize
        requires { IsAxis axis × (end ≤ 65544) }
        ensures lends { Lends self.old self.new }
        ensures visited { Visited reduction self.old.shape axis from end self.old.cube.now self.old.flags.now self.old.marks self.new.cube.now self.new.flags.now self.new.marks result }
    {
        let mut filled = 0;
        let mut m = from;
        // No range of numbers: a visit says how many lines it took.
        while m < end {
            let step = self.visit(axis, m, end);
            filled += step.filled;
            m += step.lines;
        }
        filled
    }

    // Visits line m of an axis, if there is one, and perhaps lines after it, all below `end`.
    fn visit(&mut self, axis: usize, m: usize, end: usize) -> Progress
        requires { IsAxis axis × (m < end) }
        ensures le_lines { (1 ≤ result.lines) × (m + result.lines ≤ end) }
        ensures lends { Lends self.old self.new }
        ensures visited { Visited reduction self.old.shape axis m (m + result.lines) self.old.cube.now self.old.flags.now self.old.marks self.new.cube.now self.new.flags.now self.new.marks result.filled }
    {
        let Ok(line) = shape::axis_line(self.shape, axis, m) else {
            return Progress {
                lines: 1,
                filled: 0,
            };
        };
        let most = beside(line.stride, m, end);
        on_line::fill_lines(
            self.cube,
            self.flags,
            &mut self.marks,
            self.shape,
            line,
            most,
        )
    }
}

// How many lines stand side by side from line m on, all below `end`: a block of an axis has `stride` of them.
fn beside(stride: usize, m: usize, end: usize) -> usize
    requires { (0 < stride) × (m < end) }
    ensures { (1 ≤ result) × (m + result ≤ end) × (m % stride + result ≤ stride) }
{
    (stride - m % stride).min(end - m)
}
