use super::*;
use std::test::*;

/// Instructions of each kind of operands, with whether they make a stub.
const FORMS: [(u8, bool, Operands); 24] = [
    (ops::NOP, false, Operands::Nothing),
    (ops::FCONST_0, true, Operands::Nothing),
    (ops::BIPUSH, false, Operands::Byte),
    (ops::NEWARRAY, false, Operands::Byte),
    (ops::SIPUSH, false, Operands::Short),
    (ops::ILOAD, false, Operands::Local),
    (ops::DLOAD, true, Operands::Local),
    (ops::FSTORE, true, Operands::Local),
    (ops::ASTORE, false, Operands::Local),
    (ops::LDC, false, Operands::Index1),
    (ops::LDC2_W, false, Operands::Index2),
    (ops::GETSTATIC, false, Operands::Index2),
    (ops::INSTANCEOF, false, Operands::Index2),
    (ops::IINC, false, Operands::Inc),
    (ops::IFEQ, false, Operands::Target2),
    (ops::IFNONNULL, false, Operands::Target2),
    (ops::GOTO_W, false, Operands::Target4),
    (ops::TABLESWITCH, false, Operands::Table),
    (ops::LOOKUPSWITCH, false, Operands::Lookup),
    (ops::INVOKEINTERFACE, false, Operands::Interface),
    (ops::INVOKEDYNAMIC, true, Operands::Dynamic),
    (ops::MULTIANEWARRAY, false, Operands::Multi),
    (ops::WIDE, false, Operands::Wide),
    (ops::DCMPL, true, Operands::Nothing),
];

fn has_forms(table: &OpTable<199>) -> bool {
    for (op, stub, operands) in &FORMS {
        let form = Form {
            op: *op,
            stub: *stub,
            operands: *operands,
        };
        if table.form(*op) != Some(form) {
            return false;
        }
    }
    true
}

/// Whether just the bytes that are no opcode have no row.
fn has_gaps(table: &OpTable<199>) -> bool {
    for op in 0..=255 {
        let is_gap = matches!(op, 168 | 169 | 201..=255);
        if (table.form(op) == None) != is_gap {
            return false;
        }
    }
    true
}

#[test]
fn forms(rt: HostRuntime) {
    let table = op_table();
    assert!(rt; has_forms(&table));
    assert!(rt; has_gaps(&table));
}
