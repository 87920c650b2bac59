//! The declaring of a field.

ghost use Rattle.std.specs.Prelude.{◌≡◌, ◌↔◌, ◌+◌, ◌<◌, ◌≤◌, ◌∷◌, [], length, All, Contains, slice_index, slice_index_or, IsTrue, IfSome, IfNone, IfOk, IfErr, OnErr};
ghost use Rattle.std.specs.Ordering.{nat_cmp};
ghost use Rattle.alg_model.specs.Coefficients.{residues};
ghost use Rattle.alg_model.specs.Factors.{IsIrreducible, IsLeastFactor};
ghost use Rattle.alg_model.specs.Lattices.{no_row, field_at, prime_row, IsCompatible};
ghost use Rattle.alg_model.specs.Declaring.{IsDeclared, prime_map};
ghost use Rattle.ff_field.specs.SmallFields.{IsFirstTooLarge};
ghost use Rattle.lat_core.specs.Names.{IsDeclaredName};
ghost use Rattle.lat_core.specs.Editions.{edition_of};
ghost use Rattle.lat_core.specs.Step.{IsNamed, IsFreeName, IsWellFormed, IsMalformed, declared_row, Declares};
ghost use Rattle.lat_core.specs.declared.requests.Request.TheVariants.{Declare};
ghost use Rattle.lat_insert.specs.Insertions.{StepAdds};
ghost use Rattle.lat_insert.specs.PrivateDeclaring.{AreMapsOf};

use crate::room::lacks_room;
use ff_embed::Embedding;
use ff_factor::{Verdict, judge};
use ff_field::Field;
use ff_poly::{Poly, Prime};
use lat_core::{
    Digits, Edition, FieldName, FieldRow, Lattice, MapRow, NoMemory, Reply, StepRefusal,
};

// The place of the first number that isn't below p, of numbers with such a one.
fn first_too_large(p: u8, numbers: &[u8]) -> usize
    requires { ¬ All (λ a. a < p) numbers.now }
    ensures { IsFirstTooLarge p numbers.now result }
{
    numbers.iter().position(|number| *number >= p).unwrap()
}

// The polynomial that is declared, or what is wrong with it.
fn well_formed(edition: Edition, p: u32, digits: &Digits) -> Result<Poly, StepRefusal>
    ensures well_formed { IfOk result (λ f. IsWellFormed (edition_of edition) p digits.now
        × (f ≡ record { prime = p; coefficients = digits.now })) }
    ensures malformed { IfErr result (IsMalformed (edition_of edition) p digits.now) }
{
    let numbers = digits.numbers();
    let Some(prime) = edition.characteristic(p) else {
        return Err(StepRefusal::NotInTable(p));
    };
    let degree = numbers.len() - 1;
    if degree < 2 || degree > edition.top() as usize {
        return Err(StepRefusal::DegreeOutOfRange(degree as u32));
    }
    let Some(polynomial) = Poly::of_slice(prime, numbers) else {
        let place = first_too_large(prime.number(), numbers);
        return Err(StepRefusal::CoefficientTooLarge(place as u32));
    };
    if numbers[degree] != 1 {
        return Err(StepRefusal::NotMonic);
    }
    Ok(polynomial)
}

// The least factor of a polynomial that can be declared; None where it is irreducible.
fn least_factor(edition: Edition, f: &Poly) -> Option<Poly>
    requires { IsWellFormed (edition_of edition) f.now.prime f.now.coefficients }
    ensures irreducible { IfNone result (IsIrreducible (residues f.now.prime) f.now.coefficients) }
    ensures prime { IfSome result (λ g. g.prime ≡ f.now.prime) }
    ensures factor { IfSome result (λ g.
        IsLeastFactor (residues f.now.prime) nat_cmp f.now.coefficients g.coefficients) }
{
    match judge(f) {
        Verdict::Irreducible(_) => None,
        Verdict::Reducible {
            factor,
            cofactor: _,
        } => Some(factor),
    }
}

// Whether two characteristics and two lists of coefficients are the same.
fn are_same(p: u8, f: &[u8], q: u8, g: &[u8]) -> bool
    ensures { IsTrue result ↔ ((p ≡ q) × (f.now ≡ g.now)) }
{
    p == q && f == g
}

// The reply where the field of this number has the name already.
fn named_reply(lattice: &Lattice, name: &FieldName, number: u32, polynomial: &Poly) -> Reply
    requires well_formed { IsWellFormed lattice.now.edition polynomial.now.prime
        polynomial.now.coefficients }
    requires named { IsNamed lattice.now number name.now }
    ensures { Declares lattice.now name.now polynomial.now.prime polynomial.now.coefficients
        result lattice.now }
{
    let field = &lattice.field(number).field;
    if are_same(
        field.prime().number(),
        field.poly().coefficients(),
        polynomial.prime().number(),
        polynomial.coefficients(),
    ) {
        Reply::Declared {
            number,
            already: true,
        }
    } else {
        Reply::Refused(StepRefusal::NameTaken(number))
    }
}

// The number of the prime field of a characteristic of the edition.
fn prime_number(edition: Edition, p: Prime) -> u32
    requires { Contains (edition_of edition).primes p }
    ensures within { result < length (edition_of edition).primes }
    ensures at { slice_index (edition_of edition).primes result ≡ p }
{
    let p = u32::from(p.number());
    let primes = edition.characteristics();
    for (number, q) in primes.iter().enumerate() {
        if *q == p {
            return number as u32;
        }
    }
    unreachable!()
}

// The map of a prime field into a field of its characteristic.
fn map_of_prime(prime: &Field, field: &Field) -> Embedding
    requires polynomial { prime.now.polynomial ≡ 0 ∷ 1 ∷ [] }
    requires characteristic { prime.now.characteristic ≡ field.now.characteristic }
    ensures source { result.source ≡ prime.now }
    ensures target { result.target ≡ field.now }
    ensures images { result.images ≡ prime_map field.now }
{
    let _characteristics = (prime.prime(), field.prime());
    match Embedding::of_root(prime, field, &field.zero()) {
        Some(map) => map,
        None => unreachable!(),
    }
}

// The identity of field `number`, and the map of its prime field.
fn maps_of(lattice: &Lattice, number: u32, field: &Field) -> [MapRow; 2]
    requires { Contains lattice.now.edition.primes field.now.characteristic }
    ensures { AreMapsOf lattice.now number field.now result }
{
    let prime = prime_number(lattice.edition(), field.prime());
    [
        MapRow {
            from: number,
            into: number,
            map: Embedding::identity(field),
        },
        MapRow {
            from: prime,
            into: number,
            map: map_of_prime(&lattice.field(prime).field, field),
        },
    ]
}

// The one field, with its name.
fn row_of(name: &FieldName, field: Field) -> [FieldRow; 1]
    ensures { result ≡ record { name = name.now; field = field } ∷ [] }
{
    let name = name.copy();
    [FieldRow { name, field }]
}

// The lattice with the field of this name and this polynomial.
fn with_field(lattice: &Lattice, name: &FieldName, polynomial: Poly) -> Result<Lattice, NoMemory>
    requires well_formed { IsWellFormed lattice.now.edition polynomial.prime
        polynomial.coefficients }
    requires proper { IsDeclaredName name.now }
    requires free { IsFreeName lattice.now name.now }
    requires irreducible { IsIrreducible (residues polynomial.prime) polynomial.coefficients }
    requires room { length lattice.now.rows + 1 ≤ lattice.now.edition.room }
    ensures { IfOk result (IsDeclared lattice.now
        (declared_row name.now polynomial.prime polynomial.coefficients)) }
{
    let _edition = lattice.edition();
    let field = Field::new(polynomial);
    let maps = maps_of(lattice, lattice.fields(), &field);
    let fields = row_of(name, field);
    lattice.grown(&fields, &maps)
}

// Declares the field of a polynomial that can be declared, unless the name is taken, the polynomial
// is reducible or the lattice is full.
fn declare_polynomial(
    lattice: &mut Lattice,
    name: &FieldName,
    polynomial: Poly,
) -> Result<Reply, NoMemory>
    requires proper { IsDeclaredName name.now }
    requires well_formed { IsWellFormed lattice.old.edition polynomial.prime
        polynomial.coefficients }
    ensures declared { IfOk result (λ reply. Declares lattice.old name.now polynomial.prime
        polynomial.coefficients reply lattice.new) }
    ensures kept { OnErr result (lattice.new ≡ lattice.old) }
    ensures memory { OnErr result (StepAdds lattice.old
        (Declare name.now polynomial.prime polynomial.coefficients)) }
{
    if let Some(number) = lattice.field_named(name) {
        return Ok(named_reply(lattice, name, number, &polynomial));
    }
    if let Some(factor) = least_factor(lattice.edition(), &polynomial) {
        return Ok(Reply::Refused(StepRefusal::Reducible { factor }));
    }
    let number = lattice.fields();
    if lacks_room(lattice, 1) {
        return Ok(Reply::Refused(StepRefusal::TooManyFields {
            have: number,
            need: 1,
        }));
    }
    *lattice = with_field(lattice, name, polynomial)?;
    Ok(Reply::Declared {
        number,
        already: false,
    })
}

// Declares the field of this characteristic and polynomial under this name. That there is no
// memory is answered for a further field alone.
pub(crate) fn declare(
    lattice: &mut Lattice,
    name: &FieldName,
    p: u32,
    digits: &Digits,
) -> Result<Reply, NoMemory>
    requires { IsDeclaredName name.now }
    ensures declared { IfOk result (λ reply. Declares lattice.old name.now p digits.now reply
        lattice.new) }
    ensures kept { OnErr result (lattice.new ≡ lattice.old) }
    ensures memory { OnErr result (StepAdds lattice.old (Declare name.now p digits.now)) }
    ensures whole { IsCompatible lattice.old }
{
    match well_formed(lattice.edition(), p, digits) {
        Ok(polynomial) => declare_polynomial(lattice, name, polynomial),
        Err(refusal) => Ok(Reply::Refused(refusal)),
    }
}
