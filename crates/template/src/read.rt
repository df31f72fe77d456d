// A text read by a template: its values in order and what is left of the text, or the line at which the text departs.
ghost use Rattle.std.specs.Prelude.{◌≡◌, ◌+◌, ◌^◌, ◌≤◌, ◌<◌, length, take, IfOk, IfErr};
ghost use Rattle.template.specs.Template.{holes};
ghost use Rattle.template.specs.Read.{feeds, done, departs_at};
ghost use Rattle.template.specs.Read.{read as Read·read};
ghost use Rattle.template.specs.Says.{in_places};

// A text is not of the form: the number of the line at which it departs, 0 where no line does.
#[derive(Clone, Copy, PartialEq, Eq)]
pub struct Form {
    pub line: u64,
}

// A template's values, zeros after them; and where the text goes on, with the number of its line.
#[derive(Clone, Copy)]
pub struct Filled<'a> {
    pub values: [u64; 16],
    pub line: u64,
    pub rest: &'a [u8],
}

// `first` is the number of the text's first line.
pub fn read<'a>(text: &'a [u8], template: &[u8], first: u64) -> Result<Filled<'a>, Form>
    requires places { holes template.now ≤ 16 }
    requires lines { first + length template.now < 2 ^ 63 }
    ensures values { IfOk result (λ r. Read·read template.now first text.now ≡ done (take (holes template.now) r.values) r.rest.now) }
    ensures places { IfOk result (λ r. r.values ≡ in_places (take (holes template.now) r.values)) }
    ensures line { IfOk result (λ r. r.line ≡ first + feeds template.now) }
    ensures departs { IfErr result (λ e. Read·read template.now first text.now ≡ departs_at e.line) }
{
    let mut rest = text;
    let mut line = first;
    let mut values = [0; 16];
    let mut n: usize = 0;
    for c in template {
        let Some((value, after)) = crate::token::read_field(rest, *c) else {
            return Err(Form { line });
        };
        if *c == b'#' || *c == b'%' {
            values[n] = value;
            n += 1;
        }
        if *c == b'\n' {
            line += 1;
        }
        rest = after;
    }
    Ok(Filled { values, line, rest })
}
