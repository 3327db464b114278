//! The law of compact texts. The function here has an empty body: its clause states the law.
ghost use Rattle.serde_json.specs.Data.{Data};
ghost use Rattle.cg_json.specs.Plain.{IsPlain, ReadsBack};

/// States that the compact text of each plain value is UTF-8 and reads back as the value.
pub fn plain_reads_back()
    ensures { (d : Data) → IsPlain d → ReadsBack d }
{}
