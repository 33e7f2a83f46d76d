//! One JSON object on a line of its own, which is written member by member.

ghost use Rattle.std.specs.Prelude.{◌≡◌, ◌++◌, ◌∷◌, [], IfOk, IfSome, OnOk, codes, flat_map, map, string_bytes};
ghost use Rattle.json.specs.Json.{null, boolean, string, object};
ghost use Rattle.json.specs.Print.{print};
ghost use Rattle.json.specs.Token.{begin_array, begin_object, end_array, end_object, key};
ghost use Rattle.json.specs.Token as token;
ghost use Rattle.am_alert.specs.Printing.{moment_text};
ghost use Rattle.am_script.specs.JsonLines.{about_line, alert_members, fault_members, labels_json, named};
ghost use Rattle.am_script.specs.JsonLines.{object_line, texts_json, decimal_json};
ghost use Rattle.am_script.specs.inside.AlertTokens.{moments_tokens};

use crate::script::Fault;
use am_alert::{Alert, Moment};
use am_labels::{LabelSet, Pairs, Text};
use json::Writer;
use std::alloc::{AllocError, Global};
use std::fmt;
use std::marker::Model;

// Most lines have no more bytes.
const LINE_BYTES: usize = 1_024;

/// A JSON object that is being written, seen by contracts as its tokens so far. The brace that closes
/// it is still to come.
#[derive(Drop)]
pub struct JsonLine {
    out: Writer,
    alloc: Global,
}

impl Model for JsonLine {
    ghost use Rattle.std.specs.Prelude.{◌≡◌, List, []};
    ghost use Rattle.json.specs.Token.{Token, tokens_code};

    ghost Value = { List Token };

    ghost coded = { tokens_code };

    ghost view = { λ line. line.out.tokens };

    ghost invariant = { λ line. line.out.before ≡ [] };
}

impl JsonLine {
    /// An object with no member yet.
    pub fn begin(alloc: Global) -> Result<JsonLine, AllocError>
        ensures { IfOk result (λ line. line ≡ begin_object ∷ []) }
    {
        let mut out = Writer::new(Vec::with_capacity(alloc, LINE_BYTES)?);
        out.begin_object()?;
        Ok(JsonLine { out, alloc })
    }

    /// An object about the line of input with this number, which is its first member.
    pub fn about(alloc: Global, number: u64) -> Result<JsonLine, AllocError>
        ensures { IfOk result (λ line. line ≡ begin_object ∷ named (codes "line") (decimal_json number)) }
    {
        let mut line = JsonLine::begin(alloc)?;
        line.number("line", number)?;
        Ok(line)
    }

    pub fn number(&mut self, name: &str, number: u64) -> Result<(), AllocError>
        ensures { OnOk result (self.new ≡ self.old ++ named name.now (decimal_json number)) }
    {
        self.out.key(name)?;
        self.out.u64(number)
    }

    pub fn flag(&mut self, name: &str, flag: bool) -> Result<(), AllocError>
        ensures { OnOk result (self.new ≡ self.old ++ named name.now (boolean flag)) }
    {
        self.out.key(name)?;
        self.out.boolean(flag)
    }

    pub fn null(&mut self, name: &str) -> Result<(), AllocError>
        ensures { OnOk result (self.new ≡ self.old ++ named name.now null) }
    {
        self.out.key(name)?;
        self.out.null()
    }

    pub fn text(&mut self, name: &str, text: &str) -> Result<(), AllocError>
        ensures { OnOk result (self.new ≡ self.old ++ named name.now (string text.now)) }
    {
        self.out.key(name)?;
        self.out.string(text)
    }

    /// A member with the text that a value is printed as.
    pub fn shown<T: fmt::Display>(&mut self, name: &str, value: &T) -> Result<(), AllocError>
        ensures { OnOk result (IfSome (T.output value.now)
            (λ text. self.new ≡ self.old ++ named name.now (string text))) }
    {
        let text = value.to_string(self.alloc)?;
        self.text(name, &text)
    }

    pub fn labels(&mut self, name: &str, labels: &LabelSet) -> Result<(), AllocError>
        ensures { OnOk result (self.new ≡ self.old ++ named name.now (labels_json labels.now)) }
    {
        self.open(name)?;
        self.pairs(labels.names_and_values())?;
        self.close()
    }

    fn pairs(&mut self, pairs: Pairs<'_>) -> Result<(), AllocError>
        ensures { OnOk result (self.new
            ≡ self.old ++ flat_map (λ pair. named pair.0 (string pair.1)) pairs.entry) }
    {
        for (name, value) in pairs {
            self.text(name, value)?;
        }
        Ok(())
    }

    /// A member with an array of texts.
    pub fn texts(&mut self, name: &str, texts: &[Text]) -> Result<(), AllocError>
        ensures { OnOk result (self.new ≡ self.old ++ named name.now (texts_json texts.now)) }
    {
        self.open_array(name)?;
        self.elements(texts)?;
        self.close_array()
    }

    fn elements(&mut self, texts: &[Text]) -> Result<(), AllocError>
        ensures { OnOk result (self.new ≡ self.old ++ map token.string texts.now) }
    {
        for text in texts {
            self.element(text.as_str())?;
        }
        Ok(())
    }

    fn element(&mut self, text: &str) -> Result<(), AllocError>
        ensures { OnOk result (self.new ≡ self.old ++ token.string text.now ∷ []) }
    {
        self.out.string(text)
    }

    /// A member with an alert, under Alertmanager's names.
    pub fn alert(&mut self, name: &str, alert: &Alert) -> Result<(), AllocError>
        ensures { OnOk result
            (self.new ≡ self.old ++ named name.now (object (alert_members alert.now))) }
    {
        self.open(name)?;
        self.labels("labels", &alert.labels)?;
        self.labels("annotations", &alert.annotations)?;
        self.moments(alert)?;
        self.flag("timeout", alert.timeout)?;
        self.text("generatorURL", alert.generator.as_str())?;
        self.close()
    }

    fn moments(&mut self, alert: &Alert) -> Result<(), AllocError>
        ensures { OnOk result (self.new ≡ self.old ++ moments_tokens alert.now) }
    {
        self.moment("startsAt", &alert.start)?;
        self.moment("endsAt", &alert.end)?;
        self.moment("updatedAt", &alert.updated)
    }

    fn moment(&mut self, name: &str, moment: &Moment) -> Result<(), AllocError>
        ensures { OnOk result
            (self.new ≡ self.old ++ named name.now (string (moment_text moment.now))) }
    {
        let text = moment.text();
        self.text(name, text.as_str())
    }

    // Begins a member that is an object.
    fn open(&mut self, name: &str) -> Result<(), AllocError>
        ensures { OnOk result (self.new ≡ self.old ++ key name.now ∷ begin_object ∷ []) }
    {
        self.out.key(name)?;
        self.out.begin_object()
    }

    fn close(&mut self) -> Result<(), AllocError>
        ensures { OnOk result (self.new ≡ self.old ++ end_object ∷ []) }
    {
        self.out.end_object()
    }

    // Begins a member that is an array.
    fn open_array(&mut self, name: &str) -> Result<(), AllocError>
        ensures { OnOk result (self.new ≡ self.old ++ key name.now ∷ begin_array ∷ []) }
    {
        self.out.key(name)?;
        self.out.begin_array()
    }

    fn close_array(&mut self) -> Result<(), AllocError>
        ensures { OnOk result (self.new ≡ self.old ++ end_array ∷ []) }
    {
        self.out.end_array()
    }

    /// Ends the object, and adds its line to a text.
    pub fn end(self, text: &mut String) -> Result<(), AllocError>
        ensures { OnOk result (string_bytes text.new
            ≡ string_bytes text.old ++ (print (self ++ end_object ∷ []) ++ 10 ∷ [])) }
    {
        let JsonLine { mut out, alloc: _ } = self;
        out.end_object()?;
        let Ok(line) = String::from_utf8(out.into_inner()) else {
            unreachable!()
        };
        text.push_str(&line)?;
        text.push_str("\n")
    }
}

/// Writes why the line of input with this number is refused.
pub fn write_fault(text: &mut String, number: u64, fault: Fault) -> Result<(), AllocError>
    ensures { OnOk result (string_bytes text.new
        ≡ string_bytes text.old ++ object_line (about_line number (fault_members fault))) }
{
    let mut line = JsonLine::about(*text.allocator(), number)?;
    line.text("answer", "refused")?;
    line.shown("fault", &fault)?;
    line.end(text)
}

impl fmt::Debug for JsonLine {
    fn fmt<W: fmt::Write>(&self, f: &mut fmt::Formatter<W>) -> fmt::Result {
        f.debug_struct("JsonLine").finish_non_exhaustive()
    }
}
