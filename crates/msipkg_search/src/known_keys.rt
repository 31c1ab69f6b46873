//! The external keys of the installer's own tables, as its documentation has them.

/// Tables that have a column, separated by blanks; the column; the tables that it refers to, separated by semicolons as
/// in `_Validation`; and the number of the column there, counted from 1.
type KnownKey = (&'static str, &'static str, &'static str, i32);

static KNOWN_KEYS: [KnownKey; 45] = [
    (
        "AdminExecuteSequence AdminUISequence AdvtExecuteSequence AdvtUISequence \
         InstallExecuteSequence InstallUISequence",
        "Action",
        "CustomAction;Dialog",
        1,
    ),
    ("Class", "AppId_", "AppId", 1),
    (
        "MsiPatchOldAssemblyFile",
        "Assembly_",
        "MsiPatchOldAssemblyName",
        1,
    ),
    ("BBControl", "Billboard_", "Billboard", 1),
    ("ListView", "Binary_", "Binary", 1),
    ("MIME", "CLSID", "Class", 1),
    ("ProgId", "Class_", "Class", 1),
    ("ModuleComponents", "Component", "Component", 1),
    (
        "Class Complus CreateFolder DuplicateFile Environment Extension \
         FeatureComponents File IniFile MoveFile MsiAssembly MsiAssemblyName \
         MsiServiceConfig MsiServiceConfigFailureActions ODBCDataSource ODBCDriver \
         ODBCTranslator PublishComponent Registry RemoveFile RemoveIniFile \
         RemoveRegistry ReserveCost ServiceControl ServiceInstall Shortcut TypeLib",
        "Component_",
        "Component",
        1,
    ),
    ("IsolatedComponent", "Component_Application", "Component", 1),
    ("IsolatedComponent", "Component_Shared", "Component", 1),
    (
        "ControlCondition ControlEvent EventMapping",
        "Control_",
        "Control",
        2,
    ),
    ("Dialog", "Control_Cancel", "Control", 2),
    ("Dialog", "Control_Default", "Control", 2),
    ("Dialog", "Control_First", "Control", 2),
    ("Control", "Control_Next", "Control", 2),
    ("ODBCSourceAttribute", "DataSource_", "ODBCDataSource", 1),
    (
        "Control ControlCondition ControlEvent EventMapping",
        "Dialog_",
        "Dialog",
        1,
    ),
    (
        "MsiDigitalSignature MsiPackageCertificate MsiPatchCertificate",
        "DigitalCertificate_",
        "MsiDigitalCertificate",
        1,
    ),
    (
        "Component CreateFolder Feature Shortcut TypeLib",
        "Directory_",
        "Directory",
        1,
    ),
    ("Directory", "Directory_Parent", "Directory", 1),
    ("ODBCAttribute", "Driver_", "ODBCDriver", 1),
    ("MIME Verb", "Extension_", "Extension", 1),
    (
        "Billboard Class Condition Extension FeatureComponents MsiAssembly \
         PublishComponent TypeLib",
        "Feature_",
        "Feature",
        1,
    ),
    ("Feature", "Feature_Parent", "Feature", 1),
    (
        "BindImage DuplicateFile FileSFPCatalog Font MsiFileHash \
         MsiPatchOldAssemblyFile MsiSFCBypass ODBCDriver ODBCTranslator Patch \
         SelfReg",
        "File_",
        "File",
        1,
    ),
    ("MsiAssembly", "File_Application", "File", 1),
    ("MsiAssembly", "File_Manifest", "File", 1),
    ("ODBCDriver ODBCTranslator", "File_Setup", "File", 1),
    ("Class ProgId Shortcut", "Icon_", "Icon", 1),
    ("Component", "KeyPath", "File;ODBCDataSource;Registry", 1),
    (
        "LockPermissions MsiLockPermissionsEx",
        "LockObject",
        "CreateFolder;File;Registry;ServiceInstall",
        1,
    ),
    ("Extension", "MIME_", "MIME", 1),
    ("PatchPackage", "Media_", "Media", 1),
    (
        "DrLocator",
        "Parent",
        "CompLocator;DrLocator;IniLocator;RegLocator;Signature",
        1,
    ),
    ("Extension", "ProgId_", "ProgId", 1),
    ("Class", "ProgId_Default", "ProgId", 1),
    ("ProgId", "ProgId_Parent", "ProgId", 1),
    ("FileSFPCatalog", "SFPCatalog_", "SFPCatalog", 1),
    ("MsiShortcutProperty", "Shortcut_", "Shortcut", 1),
    ("MsiDigitalSignature", "SignObject", "Media", 1),
    (
        "AppSearch CCPSearch",
        "Signature_",
        "CompLocator;DrLocator;IniLocator;RegLocator;Signature",
        1,
    ),
    (
        "CompLocator DrLocator IniLocator RegLocator",
        "Signature_",
        "Signature",
        1,
    ),
    ("Patch", "StreamRef_", "MsiPatchHeaders", 1),
    ("Shortcut", "Target", "Feature", 1),
];

/// Returns the tables and the number of the column that a column of one of the installer's tables refers to.
pub(crate) fn known_key(table: &str, column: &str) -> Option<(&'static str, i32)> {
    for (tables, name, key_tables, number) in known_keys() {
        if *name == column && tables.split(' ').any(|known| known == table) {
            return Some((*key_tables, *number));
        }
    }
    None
}

/// Proofs go through all rows in each function that names the table, so this is the only one.
fn known_keys() -> &'static [KnownKey] {
    KNOWN_KEYS.as_slice()
}
