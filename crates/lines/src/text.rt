// An answer's lines, written into the memory that a caller lends.
ghost use Rattle.std.specs.Prelude.{[], ◌∷◌, ◌++◌, ◌≤◌, length};
ghost use Rattle.lines.specs.Decimal.{ascii, decimal, microseconds};
ghost use Rattle.lines.specs.Text.{refused_line, report_line, figure_text, fields_line, chain_line, violation_lines, chain_lines};

use answer::Figures;
use error::Code;
use report::{Figure, TStdChainStats, TStdReport, ViolationFields};

// A text in the memory that a caller lends: it stands before `at`, and is cut where the memory ends.
#[derive(Drop)]
pub(crate) struct Text<'a> {
    pub(crate) out: &'a mut [u8],
    pub(crate) at: usize,
    ghost within: { at ≤ length out.now },
}

// The ends of an i64: 2^63 below zero and 2^63 - 1 above.
const MOST_BELOW: u64 = 9223372036854775808;

const MOST_ABOVE: u64 = 9223372036854775807;

// The number in each contract is the greatest length of what is written.
impl Text<'_> {
    ghost use Rattle.lines.specs.Written.{Appends};

    // One byte, if there is room for it.
    fn byte(&mut self, byte: u8)
        ensures { Appends 1 (byte ∷ []) self.old self.new }
    {
        if self.at < self.out.len() {
            self.out[self.at] = byte;
            self.at += 1;
        }
    }

    fn bytes(&mut self, bytes: &[u8])
        ensures { Appends (length bytes.now) bytes.now self.old self.new }
    {
        for &byte in bytes {
            self.byte(byte);
        }
    }

    // By hand and not by `write!`, which promises its bytes where it succeeds and not that it does: every byte of this text is promised. Nor by the
    // crate `itoa`: a law would have to tie its decimal text to the one that the contract names, for eight lines less.
    #[tactic(auto, using(crate::proofs::Written::no_longer, crate::proofs::Written::same_text, crate::proofs::Decimal::one_digit, crate::proofs::Decimal::digits_most))]
    fn number(&mut self, n: u64)
        ensures { Appends 20 (decimal n) self.old self.new }
    {
        if n < 10 {
            self.byte(b'0' + n as u8);
            return;
        }
        self.number(n / 10);
        self.byte(b'0' + (n % 10) as u8);
    }

    // Seconds in microseconds, by the product and the product negated: of their whole numbers one is 0.
    #[tactic(auto, unfolding(crate::specs::Decimal::microseconds), using(crate::proofs::Written::same_text, crate::proofs::Decimal::not_below))]
    fn micros(&mut self, seconds: f64)
        ensures { Appends 20 (microseconds seconds) self.old self.new }
    {
        let micros = seconds * 1000000.0;
        let below = ieee::to_u64(-micros).min(MOST_BELOW);
        if below == 0 {
            self.number(ieee::to_u64(micros).min(MOST_ABOVE));
            return;
        }
        self.byte(b'-');
        self.number(below);
    }

    // A field behind the first of its line: a comma, then the number.
    fn number_field(&mut self, n: u64)
        ensures { Appends 21 (ascii "," ++ decimal n) self.old self.new }
    {
        self.byte(b',');
        self.number(n);
    }

    fn micros_field(&mut self, seconds: f64)
        ensures { Appends 21 (ascii "," ++ microseconds seconds) self.old self.new }
    {
        self.byte(b',');
        self.micros(seconds);
    }

    #[tactic(auto, unfolding(crate::specs::Text::figure_text))]
    fn figure_field(&mut self, figure: Figure)
        ensures { Appends 21 (ascii "," ++ figure_text figure) self.old self.new }
    {
        match figure {
            Figure::Bytes(n) => self.number_field(n),
            Figure::Seconds(s) => self.micros_field(s),
        }
    }

    pub(crate) fn refused_line(&mut self, code: Code)
        ensures { Appends 50 (refused_line code) self.old self.new }
    {
        self.bytes(b"refused");
        self.number_field(u64::from(code.number));
        self.number_field(code.place);
        self.byte(b'\n');
    }

    pub(crate) fn report_line(&mut self, report: TStdReport)
        ensures { Appends 70 (report_line report) self.old self.new }
    {
        self.bytes(b"report");
        self.number_field(report.violation_events);
        self.number_field(report.pcr_samples);
        self.micros_field(report.modelled_seconds);
        self.byte(b'\n');
    }

    fn violation_line(&mut self, v: ViolationFields)
        ensures { Appends 115 (fields_line v) self.old self.new }
    {
        self.bytes(b"violation");
        self.number_field(u64::from(v.kind));
        self.number_field(u64::from(v.pid));
        self.number_field(v.limit as u64);
        self.micros_field(v.decode_time);
        self.figure_field(v.figure);
        self.byte(b'\n');
    }

    fn chain_line(&mut self, chain: TStdChainStats)
        ensures { Appends 132 (chain_line chain) self.old self.new }
    {
        self.bytes(b"chain");
        self.number_field(u64::from(chain.pid));
        self.number_field(chain.peak_tb_bytes);
        self.number_field(chain.peak_main_bytes);
        self.number_field(chain.peak_eb_bytes);
        self.number_field(chain.access_units);
        self.micros_field(chain.max_delay_seconds);
        self.byte(b'\n');
    }

    #[tactic(auto, unfolding(crate::specs::Text::each, crate::specs::Text::violation_lines), using(crate::proofs::Written::nothing, crate::proofs::Lines::all_lines))]
    pub(crate) fn violation_lines(&mut self, report: TStdReport)
        ensures { Appends 7360 (violation_lines report) self.old self.new }
    {
        for line in &report.violations[..report.violation_count.min(64)] {
            self.violation_line(line.violation.fields());
        }
    }

    #[tactic(auto, unfolding(crate::specs::Text::each), using(crate::proofs::Written::nothing))]
    pub(crate) fn chain_lines(&mut self, figures: Figures)
        ensures { Appends 1188 (chain_lines figures) self.old self.new }
    {
        for &chain in &figures.rows[..figures.count.min(9)] {
            self.chain_line(chain);
        }
    }
}
