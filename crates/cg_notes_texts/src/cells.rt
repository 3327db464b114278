//! The forms of cells of netlists, as the messages on their faults give them.

/// A form of cells.
#[derive(Clone, Copy, Drop)]
pub(crate) struct Form {
    /// The beginning of the names of its modules.
    pub(crate) front: &'static str,
    /// Its pins in order, and the range of the numbers in the name.
    pub(crate) pins: &'static str,
    /// How its cells are named.
    pub(crate) names: &'static str,
}

/// All forms.
const FORMS: [Form; 6] = [
    Form {
        front: "cg_ctx_",
        pins: "cg_ctx_W has the pins clk, rst, q in this order, and W is 1 to 17",
        names: "a cg_ctx_W is named c_X, and X is a resource with drivers whose select has W bits",
    },
    Form {
        front: "cg_pre_",
        pins: "cg_pre_W has the pins clk, rst, q in this order, and W is 1 to 17",
        names: "a cg_pre_W is named p_X, and X is a resource with drivers whose select has W bits",
    },
    Form {
        front: "cg_mux_",
        pins: "cg_mux_K has the pins s, d1 to dK, q in this order, and K is 1 to 65535",
        names: "",
    },
    Form {
        front: "cg_reg_",
        pins: "cg_reg_K has the pins clk, rst, s, d1 to dK, q in this order, and K is 1 to 65535",
        names: "",
    },
    Form {
        front: "cg_zero",
        pins: "cg_zero has the pin q",
        names: "",
    },
    Form {
        front: "cg_unit_",
        pins: "cg_unit_P_L_H has the pins clk, rst, the first P of a, b, c, and q in this order; P is 0 to 3, L 1 to 4, H a set in hexadecimal digits",
        names: "a cg_unit_P_L_H is named u_X, and X is a unit with P ports, latency L and the operations H",
    },
];

/// Returns the form whose modules have names as `module`.
pub(crate) fn form_of(module: &str) -> Option<Form> {
    FORMS
        .iter()
        .find(|form| module.starts_with(form.front))
        .copied()
}

/// Returns the number in `module` after the beginning that its form gives.
pub(crate) fn number_in(module: &str) -> u32 {
    match module.rsplit_once('_') {
        Some((_, number)) => number.parse::<u32>().unwrap_or(0),
        None => 0,
    }
}

/// Returns the number of bits that the net of `pin` of a cell of `module` must have.
pub(crate) fn pin_bits(module: &str, pin: &str) -> u32 {
    let number = number_in(module);
    match pin {
        "s" => 32u32.saturating_sub(number.leading_zeros()),
        "q" if module.starts_with("cg_ctx_") || module.starts_with("cg_pre_") => number,
        _ => 32,
    }
}
