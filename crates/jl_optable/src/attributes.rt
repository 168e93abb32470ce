//! The table of the attributes of class files that are read, with where they stand and from which major
//! version on (JVMS 4.7).

ghost use Rattle.std.specs.Prelude.{◌≡◌, length};
ghost use Rattle.jl_optable.specs.Attributes as words;
ghost use Rattle.jl_optable.specs.Attributes.{attribute_form, first_row, name_of, table};

use std::marker::Model;

/// Where an attribute stands.
#[derive(Clone, Copy, Debug, PartialEq, Eq)]
pub enum Site {
    Class,
    Field,
    Method,
    Code,
}

/// What an attribute holds.
#[derive(Clone, Copy, Debug, PartialEq, Eq)]
pub enum AttrForm {
    /// ConstantValue: the index of a constant (JVMS 4.7.2).
    ConstantIndex,
    /// Code (JVMS 4.7.3).
    CodeBody,
    /// StackMapTable: any bytes, which the reader of frames alone reads (JVMS 4.7.4).
    Frames,
    /// NestHost: the index of a class (JVMS 4.7.28).
    Host,
    /// NestMembers: a count and indices of classes (JVMS 4.7.29).
    Members,
    /// Record: a count, and per component a name, a descriptor and attributes (JVMS 4.7.30).
    Components,
    /// PermittedSubclasses: a count and indices of classes (JVMS 4.7.31).
    Permits,
}

impl Site {
    fn is(self, other: Site) -> bool
        ensures { result ≡ words.is_site self other }
    {
        match self {
            Site::Class => matches!(other, Site::Class),
            Site::Field => matches!(other, Site::Field),
            Site::Method => matches!(other, Site::Method),
            Site::Code => matches!(other, Site::Code),
        }
    }
}

impl AttrForm {
    /// The name of the attributes of a form.
    pub fn name(self) -> &'static str
        ensures { result.now ≡ name_of self }
    {
        match self {
            AttrForm::ConstantIndex => "ConstantValue",
            AttrForm::CodeBody => "Code",
            AttrForm::Frames => "StackMapTable",
            AttrForm::Host => "NestHost",
            AttrForm::Members => "NestMembers",
            AttrForm::Components => "Record",
            AttrForm::Permits => "PermittedSubclasses",
        }
    }
}

/// A row of the table: attributes of a form are read at a site, from a major version on.
#[derive(Clone, Copy, Debug, PartialEq, Eq)]
pub struct AttrRow {
    pub site: Site,
    pub major: u16,
    pub form: AttrForm,
}

/// A table of N rows, which contracts see as their list.
#[derive(Drop)]
pub struct AttrTable<const N: usize> {
    rows: &'static [AttrRow; N],
}

impl<const N: usize> Model for AttrTable<N> {
    ghost use Rattle.std.specs.Prelude.{◌≡◌, List};
    ghost use Rattle.jl_optable.specs.declared.attributes.AttrRow.{AttrRow};
    ghost use Rattle.jl_optable.specs.Attributes.{table};

    ghost Value = { List AttrRow };

    ghost view = { λ it. it.rows.now };

    ghost invariant = { λ it. (N ≡ 7) × (it.rows.now ≡ table) };
}

impl<const N: usize> AttrTable<N> {
    /// What the attributes of a name hold at a site, in a file of a major version, where they are read.
    pub fn row(&self, name: &[u8], site: Site, major: u16) -> Option<AttrForm>
        ensures { result ≡ attribute_form site major name.now }
    {
        let rows = self.rows;
        row_of(rows, name, site, major)
    }
}

/// The form of the first row for a name at a site.
#[tactic(auto, unfolding(crate::specs::Attributes::first_row))]
fn row_of(rows: &[AttrRow], name: &[u8], site: Site, major: u16) -> Option<AttrForm>
    ensures { result ≡ first_row site major name.now rows.now }
{
    let mut rest = rows;
    while let [row, others @ ..] = rest {
        if is_for(row, name, site, major) {
            return Some(row.form);
        }
        rest = others;
    }
    None
}

fn is_for(row: &AttrRow, name: &[u8], site: Site, major: u16) -> bool
    ensures { result ≡ words.is_for site major name.now row.now }
{
    row.site.is(site) && row.major <= major && row.form.name().as_bytes() == name
}

/// Rows: a form, its site, and the major version from which on it is read.
macro_rules! rows {
    ($($form:ident $site:ident $major:literal;)*) => {
        [$(AttrRow { site: Site::$site, major: $major, form: AttrForm::$form },)*]
    };
}

/// The table of the attributes that are read.
pub fn attr_table() -> AttrTable<7>
    ensures rows { result ≡ table }
    ensures count { length result ≡ 7 }
{
    static ROWS: [AttrRow; 7] = rows! {
        ConstantIndex Field 53;
        CodeBody Method 53;
        Frames Code 53;
        Host Class 55;
        Members Class 55;
        Components Class 60;
        Permits Class 61;
    };
    AttrTable { rows: &ROWS }
}
