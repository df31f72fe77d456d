// A reader of a text in parts: parts in, and at the finishing call the request or Form.
ghost use Rattle.std.specs.Prelude.{◌≡◌, take};
ghost use Rattle.read.specs.Request.{read_request};
ghost use Rattle.read.specs.Rows.{fill_request, asking_of};
ghost use Rattle.parts.specs.Reader.{fresh_of, part_of, taken_of, finished_of};

use read::Asking;
use template::read::Form;

// The first n bytes are kept: fixed memory, as no library here takes from a heap.
#[derive(Clone, Copy)]
pub struct Reader {
    pub bytes: [u8; 8193],
    pub n: usize,
    pub finished: bool,
}

impl Reader {
    #[tactic(auto, unfolding(crate::specs::Reader::fresh_of))]
    pub fn new() -> Reader
        ensures { result ≡ fresh_of }
    {
        Reader {
            bytes: [0; 8193],
            n: 0,
            finished: false,
        }
    }

    // After finishing a part is refused, Form with line 0 for this call, and the reader stays as it was.
    #[tactic(auto, unfolding(crate::specs::Reader::part_of, crate::specs::Reader::taken_of))]
    pub fn part(&mut self, bytes: &[u8]) -> Result<(), Form>
        ensures value { result ≡ taken_of self.old }
        ensures reader { self.new ≡ part_of self.old bytes.now }
    {
        if self.finished {
            return Err(Form { line: 0 });
        }
        self.n = crate::kept::more(&mut self.bytes, self.n, bytes);
        Ok(())
    }

    // A second call answers the same.
    pub fn finish(&mut self, litters: &mut [u32; 384]) -> Result<Asking, Form>
        ensures value { result ≡ asking_of 0 (read_request (take self.old.n self.old.bytes)) }
        ensures reader { self.new ≡ finished_of self.old }
        ensures filled { litters.new ≡ fill_request litters.old (take self.old.n self.old.bytes) }
    {
        self.finished = true;
        crate::kept::request(&self.bytes, self.n, litters)
    }
}
