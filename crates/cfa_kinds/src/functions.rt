// The functions, and what they take.
ghost use Rattle.std.specs.Prelude.{◌≡◌};
ghost use Rattle.cfa_kinds.specs.Functions.{function_named, answers_class, takes_count, takes_list};

/// A function that answers a text.
#[derive(Clone, Copy, Debug, PartialEq, Eq)]
pub enum TextFunction {
    Canonify,
    Concat,
    Join,
    Length,
    Nth,
}

/// A function that answers whether a class holds.
#[derive(Clone, Copy, Debug, PartialEq, Eq)]
pub enum ClassFunction {
    Strcmp,
    Regcmp,
    IsVariable,
}

/// A function, by what it answers.
#[derive(Clone, Copy, Debug, PartialEq, Eq)]
pub enum Function {
    OfText(TextFunction),
    OfClass(ClassFunction),
}

/// The function of a name. `None` also for the functions that this profile leaves out.
#[tactic(auto, unfolding(crate::specs::Functions::function_named))]
pub fn function_named(name: &str) -> Option<Function>
    ensures { result ≡ function_named name.now }
{
    match name {
        "canonify" => Some(Function::OfText(TextFunction::Canonify)),
        "concat" => Some(Function::OfText(TextFunction::Concat)),
        "join" => Some(Function::OfText(TextFunction::Join)),
        "length" => Some(Function::OfText(TextFunction::Length)),
        "nth" => Some(Function::OfText(TextFunction::Nth)),
        "strcmp" => Some(Function::OfClass(ClassFunction::Strcmp)),
        "regcmp" => Some(Function::OfClass(ClassFunction::Regcmp)),
        "isvariable" => Some(Function::OfClass(ClassFunction::IsVariable)),
        _ => None,
    }
}

impl Function {
    /// Whether it answers a class; else it answers a text.
    pub fn answers_class(self) -> bool
        ensures { result ≡ answers_class self }
    {
        match self {
            Function::OfText(_) => false,
            Function::OfClass(_) => true,
        }
    }

    /// Whether it takes so many arguments.
    pub fn takes_count(self, count: usize) -> bool
        ensures { result ≡ takes_count self count }
    {
        match self {
            Function::OfText(TextFunction::Canonify) => count == 1,
            Function::OfText(TextFunction::Concat) => true,
            Function::OfText(TextFunction::Join) => count == 2,
            Function::OfText(TextFunction::Length) => count == 1,
            Function::OfText(TextFunction::Nth) => count == 2,
            Function::OfClass(ClassFunction::Strcmp) => count == 2,
            Function::OfClass(ClassFunction::Regcmp) => count == 2,
            Function::OfClass(ClassFunction::IsVariable) => count == 1,
        }
    }

    /// Whether it takes a list at a place, from 0.
    pub fn takes_list(self, place: usize) -> bool
        ensures { result ≡ takes_list self place }
    {
        match self {
            Function::OfText(TextFunction::Join) => place == 1,
            Function::OfText(TextFunction::Length) => place == 0,
            Function::OfText(TextFunction::Nth) => place == 0,
            Function::OfText(TextFunction::Canonify) => false,
            Function::OfText(TextFunction::Concat) => false,
            Function::OfClass(_) => false,
        }
    }
}
