ghost use Rattle.std.specs.Prelude.{◌≡◌};
ghost use Rattle.locality.specs.Defaults.{
  has_no_element,
  has_every_element,
  has_no_pair,
  falls_short,
  has_partners,
  has_every_pair,
  is_transitive,
  is_functional,
};

/// What the concepts outside a list are set to.
#[derive(Clone, Copy, Debug, PartialEq, Eq, Hash)]
pub enum ConceptDefault {
    /// No element.
    Empty,
    /// All elements.
    Full,
}

impl ConceptDefault {
    // No element is in it.
    pub(crate) fn has_no_element(self) -> bool
        ensures { result ≡ has_no_element self }
    {
        self == ConceptDefault::Empty
    }

    // Every element is in it.
    pub(crate) fn has_every_element(self) -> bool
        ensures { result ≡ has_every_element self }
    {
        self == ConceptDefault::Full
    }
}

/// What the roles outside a list are set to.
#[derive(Clone, Copy, Debug, PartialEq, Eq, Hash)]
pub enum RoleDefault {
    /// No pair.
    Empty,
    /// All pairs.
    Full,
}

impl RoleDefault {
    // No element has a partner in it.
    pub(crate) fn has_no_pair(self) -> bool
        ensures { result ≡ has_no_pair self }
    {
        match self {
            RoleDefault::Empty => true,
            RoleDefault::Full => false,
        }
    }

    // In no world has an element so many partners in it.
    pub(crate) fn falls_short(self, count: u16) -> bool
        ensures { result ≡ falls_short self count }
    {
        match self {
            RoleDefault::Empty => true,
            RoleDefault::Full => false,
        }
    }

    // Every element has a partner in it.
    pub(crate) fn has_partners(self) -> bool
        ensures { result ≡ has_partners self }
    {
        match self {
            RoleDefault::Empty => false,
            RoleDefault::Full => true,
        }
    }

    // Every pair is in it.
    pub(crate) fn has_every_pair(self) -> bool
        ensures { result ≡ has_every_pair self }
    {
        match self {
            RoleDefault::Empty => false,
            RoleDefault::Full => true,
        }
    }

    // It is transitive.
    pub(crate) fn is_transitive(self) -> bool
        ensures { result ≡ is_transitive self }
    {
        match self {
            RoleDefault::Empty | RoleDefault::Full => true,
        }
    }

    // In every world no element has two partners in it.
    pub(crate) fn is_functional(self) -> bool
        ensures { result ≡ is_functional self }
    {
        match self {
            RoleDefault::Empty => true,
            RoleDefault::Full => false,
        }
    }
}
