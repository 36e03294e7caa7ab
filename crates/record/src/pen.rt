// A pen: the bytes that a printer is lent, and how many of them are written, from the first on.
ghost use Rattle.std.specs.Prelude.{◌+◌, ◌≤◌, length};
ghost use Rattle.model.specs.Text.{decimal};
ghost use Rattle.record.specs.Pen.{Adds, figure_room};

#[derive(Drop)]
pub struct Pen<'a> {
    pub out: &'a mut [u8],
    pub at: usize,
}

impl Pen<'_> {
    // Writes the fixed text p next.
    pub fn literal(&mut self, p: &[u8])
        requires { self.old.at + length p.now ≤ length self.old.out.now }
        ensures { Adds p.now self.old self.new }
    {
        let at = self.at;
        self.at += text::put_literal(&mut self.out[at..], p);
    }

    // Writes n in decimal next.
    pub fn number(&mut self, n: u32)
        requires { self.old.at + figure_room ≤ length self.old.out.now }
        ensures adds { Adds (decimal n) self.old self.new }
        ensures few { self.new.at ≤ self.old.at + figure_room }
    {
        let at = self.at;
        self.at += text::put_number(&mut self.out[at..], n);
    }
}
