// The rest of a call's line: the number of its answer, and what that carries. An edit and a figure are told in one
// write, rows in one for the number and then a line at a time, also where there are none.
use gate::RunRow;
use std::io;
use table::Table;

pub trait Value: Copy {
    // Where the call is accepted, 0 and the value.
    fn put<P: Print>(&self, rt: &P) -> io::Result<()>;

    // Where it is refused, the number and the bound that goes with it.
    fn put_refusal<P: Print>(rt: &P, number: u64, bound: u32) -> io::Result<()> {
        println!(rt; "{number} {bound}")
    }
}

// The number of a refused question for rows, and that there are none.
fn put_no_rows<P: Print>(rt: &P, number: u64) -> io::Result<()> {
    print!(rt; "{number} ")?;
    println!(rt; "0")
}

// An edit carries nothing.
impl Value for () {
    fn put<P: Print>(&self, rt: &P) -> io::Result<()> {
        println!(rt; "0 0")
    }
}

impl Value for u64 {
    fn put<P: Print>(&self, rt: &P) -> io::Result<()> {
        println!(rt; "0 {self}")
    }
}

// How many runs there are, and a line for each.
impl Value for RunRow {
    fn put<P: Print>(&self, rt: &P) -> io::Result<()> {
        print!(rt; "0 ")?;
        println!(rt; "{}", self.n)?;
        for x in self.row.iter().take(self.n) {
            println!(rt; "  {} {}", x.start, x.len)?;
        }
        Ok(())
    }

    fn put_refusal<P: Print>(rt: &P, number: u64, _bound: u32) -> io::Result<()> {
        put_no_rows(rt, number)
    }
}

// How many stairs there are, and a line for each.
impl Value for Table {
    fn put<P: Print>(&self, rt: &P) -> io::Result<()> {
        print!(rt; "0 ")?;
        println!(rt; "{}", self.n)?;
        for (far, tot) in self.far.iter().zip(&self.tot).take(self.n) {
            println!(rt; "  {far} {tot}")?;
        }
        Ok(())
    }

    fn put_refusal<P: Print>(rt: &P, number: u64, _bound: u32) -> io::Result<()> {
        put_no_rows(rt, number)
    }
}
