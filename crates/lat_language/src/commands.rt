//! Commands.

use lat_core::{Digits, FieldName};

/// Which of the operations that a program is given.
#[derive(Clone, Copy, PartialEq, Eq, Debug)]
pub enum Op {
    /// `first`
    First,
    /// `second`
    Second,
    /// `third`
    Third,
}

/// A command of a script; the fields are the operands in the order of the words. A name that a
/// result is stored under, and that of a field that is declared, is a declared name.
#[derive(Drop)]
pub enum Command {
    /// `field NAME P COEFFICIENTS`: declares the field of this characteristic and polynomial under
    /// this name.
    Field {
        name: FieldName,
        p: u32,
        poly: Digits,
    },
    /// `embed FIELD into FIELD`: embeds one field into another.
    Embed {
        from: FieldName,
        into: FieldName,
    },
    /// `embed FIELD into FIELD sending VAR to VAR`: the same, with a prescribed image.
    EmbedSending {
        from: FieldName,
        into: FieldName,
        value: FieldName,
        image: FieldName,
    },
    /// `sync`: sees what other sessions have changed.
    Sync,
    /// `let VAR FIELD COEFFICIENTS`: stores the value of this field with these coefficients.
    Let {
        result: FieldName,
        field: FieldName,
        digits: Digits,
    },
    /// `add VAR VAR VAR`: stores the sum of two values.
    Add {
        result: FieldName,
        left: FieldName,
        right: FieldName,
    },
    /// `mul VAR VAR VAR`: stores the product of two values.
    Mul {
        result: FieldName,
        left: FieldName,
        right: FieldName,
    },
    /// `inv VAR VAR`: stores the inverse of a value.
    Inv {
        result: FieldName,
        value: FieldName,
    },
    /// `pow VAR VAR N`: stores a power of a value.
    Pow {
        result: FieldName,
        value: FieldName,
        exponent: u64,
    },
    /// `frob VAR VAR`: stores the power of a value by the characteristic.
    Frob {
        result: FieldName,
        value: FieldName,
    },
    /// `trace VAR VAR`: stores the trace of a value.
    Trace {
        result: FieldName,
        value: FieldName,
    },
    /// `norm VAR VAR`: stores the norm of a value.
    Norm {
        result: FieldName,
        value: FieldName,
    },
    /// `lift VAR VAR FIELD`: stores a value as one of another field.
    Lift {
        result: FieldName,
        value: FieldName,
        to: FieldName,
    },
    /// `apply VAR OP VAR`: stores what an operation gives at a value.
    Apply {
        result: FieldName,
        op: Op,
        value: FieldName,
    },
    /// `show VAR`: shows a value.
    Show {
        value: FieldName,
    },
    /// `map FIELD FIELD`: shows the image of the generator of one field in another.
    Map {
        from: FieldName,
        into: FieldName,
    },
    /// `meet FIELD FIELD in FIELD`: shows in which field two fields meet in a third one.
    Meet {
        first: FieldName,
        second: FieldName,
        within: FieldName,
    },
    /// `common FIELD FIELD`: shows a common overfield of two fields.
    Common {
        first: FieldName,
        second: FieldName,
    },
    /// `minpoly VAR`: shows the minimal polynomial of a value over the prime field.
    MinPoly {
        value: FieldName,
    },
    /// `minpoly VAR over FIELD`: shows the minimal polynomial of a value over a field.
    MinPolyOver {
        value: FieldName,
        over: FieldName,
    },
    /// `list FIELD`: shows the stored subfields of a field.
    List {
        field: FieldName,
    },
    /// `count`: shows the numbers of fields and of maps.
    Count,
}
