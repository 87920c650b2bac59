//! What commands compute with the value of a variable.

ghost use Rattle.std.specs.Prelude.{◌≡◌};
ghost use Rattle.alg_model.specs.Maps.{field_values};
ghost use Rattle.lat_language.specs.declared.commands.Command.TheVariants.{Inv, Pow, Frob, Apply};
ghost use Rattle.lat_session.specs.Outcomes.{operations_of, KeepsValues};
ghost use Rattle.lat_session.specs.Playing.{FitSeen};
ghost use Rattle.lat_session.specs.PrivatePlaying.{ComesTo, ComesBy};

use crate::reading::field_of;
use crate::sessions::Session;
use ff_field::{Field, Value};
use lat_core::{FieldName, Port, SessionRefusal, Tagged};
use lat_language::Op;
use natural_ops::{Operation, Ops};

// What the operation of this name gives at a value of a field.
fn value_of<F: Operation, G: Operation, H: Operation>(
    op: Op,
    ops: &Ops<F, G, H>,
    field: &Field,
    a: &Value,
) -> Value
    requires { (field_values field.now).Valid a.now }
    ensures { result ≡ operations_of ops.now.first ops.now.second ops.now.third op field.now
        a.now }
{
    match op {
        Op::First => ops.first.apply(field, a),
        Op::Second => ops.second.apply(field, a),
        Op::Third => ops.third.apply(field, a),
    }
}

// They give values of the field of their operand.
pub(crate) fn values_kept<F: Operation, G: Operation, H: Operation>(ops: &Ops<F, G, H>)
    ensures { KeepsValues (operations_of ops.now.first ops.now.second ops.now.third) }
{
    let _first = ops.first.table();
    let _second = ops.second.table();
    let _third = ops.third.table();
}

impl Session {
    // The inverse of a variable's value.
    pub(crate) fn inverse<P: Port>(
        &self,
        port: &P,
        value: &FieldName,
    ) -> Result<Tagged, SessionRefusal>
        requires { FitSeen (P.knowledge port.now) self.now }
        ensures { ComesTo (P.knowledge port.now) self.now (λ name. Inv name value.now) result }
    {
        let operand = self.operand(value)?;
        let field = field_of(port, operand.field);
        match field.inv(&operand.value) {
            Some(inverse) => Ok(Tagged {
                field: operand.field,
                value: inverse,
            }),
            None => Err(SessionRefusal::ZeroInverse),
        }
    }

    // A power of a variable's value.
    pub(crate) fn power<P: Port>(
        &self,
        port: &P,
        value: &FieldName,
        exponent: u64,
    ) -> Result<Tagged, SessionRefusal>
        requires { FitSeen (P.knowledge port.now) self.now }
        ensures { ComesTo (P.knowledge port.now) self.now
            (λ name. Pow name value.now exponent) result }
    {
        let operand = self.operand(value)?;
        let field = field_of(port, operand.field);
        Ok(Tagged {
            field: operand.field,
            value: field.pow(&operand.value, exponent),
        })
    }

    // The power of a variable's value by the characteristic.
    pub(crate) fn frobenius<P: Port>(
        &self,
        port: &P,
        value: &FieldName,
    ) -> Result<Tagged, SessionRefusal>
        requires { FitSeen (P.knowledge port.now) self.now }
        ensures { ComesTo (P.knowledge port.now) self.now (λ name. Frob name value.now) result }
    {
        let operand = self.operand(value)?;
        let field = field_of(port, operand.field);
        Ok(Tagged {
            field: operand.field,
            value: field.frob(&operand.value),
        })
    }

    // What an operation gives at a variable's value.
    pub(crate) fn applied<P: Port, F: Operation, G: Operation, H: Operation>(
        &self,
        port: &P,
        op: Op,
        value: &FieldName,
        ops: &Ops<F, G, H>,
    ) -> Result<Tagged, SessionRefusal>
        requires { FitSeen (P.knowledge port.now) self.now }
        ensures { ComesBy (operations_of ops.now.first ops.now.second ops.now.third)
            (P.knowledge port.now) self.now (λ name. Apply name op value.now) result }
    {
        let operand = self.operand(value)?;
        let number = operand.field;
        let field = field_of(port, number);
        Ok(Tagged {
            field: number,
            value: value_of(op, ops, &field, &operand.value),
        })
    }
}
