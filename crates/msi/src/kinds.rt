//! The types of packages.

ghost use Rattle.std.specs.Prelude.{◌≡◌, IfSome, Some};
ghost use Rattle.msi.specs.Kinds.{clsid_of, clsid_of_number, title_of};

/// The type of a package.
#[derive(Clone, Copy, PartialEq, Eq, Hash, Debug, Drop)]
pub enum PackageType {
    /// A package that installs a product.
    Installer,
    /// A package that changes installed products.
    Patch,
    /// A package that changes another package.
    Transform,
}

/// Returns the CLSID of a package, as it is stored: the types differ in its first byte.
fn clsid_with(first: u8) -> [u8; 16]
    ensures { result ≡ clsid_of_number first }
{
    [
        first, 0x10, 0x0C, 0, 0, 0, 0, 0, 0xC0, 0, 0, 0, 0, 0, 0, 0x46,
    ]
}

impl PackageType {
    /// Returns the type of a package whose root has this CLSID, as it is stored. It is none for any other CLSID.
    pub fn from_clsid(clsid: &[u8; 16]) -> Option<PackageType>
        ensures found { IfSome result (λ kind. clsid.now ≡ clsid_of kind) }
        ensures only { (kind : PackageType) → clsid.now ≡ clsid_of kind → result ≡ Some kind }
    {
        if *clsid == PackageType::Installer.clsid() {
            return Some(PackageType::Installer);
        }
        if *clsid == PackageType::Patch.clsid() {
            return Some(PackageType::Patch);
        }
        if *clsid == PackageType::Transform.clsid() {
            return Some(PackageType::Transform);
        }
        None
    }

    /// Returns the root's CLSID of a package of this type, as it is stored.
    pub fn clsid(self) -> [u8; 16]
        ensures { result ≡ clsid_of self }
    {
        match self {
            PackageType::Installer => clsid_with(0x84),
            PackageType::Patch => clsid_with(0x86),
            PackageType::Transform => clsid_with(0x82),
        }
    }

    /// Returns the title of a new package's summary.
    pub fn title(self) -> &'static str
        ensures { result.now ≡ title_of self }
    {
        match self {
            PackageType::Installer => "Installation Database",
            PackageType::Patch => "Patch",
            PackageType::Transform => "Transform",
        }
    }
}
