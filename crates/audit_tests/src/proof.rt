//! Proofs of an independent program written from the protocol's description, worked verdicts, and both
//! servers together.
ghost use Rattle.std.specs.Prelude.{◌≤◌};

use chacha_expand::challenge;
use express_words::{Closing, Openings, ProofShare};
use snip_proof::{ProofShares, WriteLeaves, close_share, judge, open_share, prove, servers_accept};
use write_sketch::Sums;

/// What a client proves, what server 0 opens of its share with some sums, and what both servers close of some
/// openings.
struct Row {
    m: u128,
    r: u128,
    s: u128,
    choices: [u128; 16],
    shares: (ProofShare, ProofShare),
    sums: Sums,
    sigma: u128,
    openings: Openings,
    opened: Openings,
    closings: (Closing, Closing),
}

const ROWS: [Row; 4] = [
    Row {
        m: 0x3ef5_615c_9c14_4550_d7c8_2039_6a44_3a32,
        r: 0x6104_66a5_3fed_a77a_f213_5fa6_f3ca_652c,
        s: 0x88fb_5399_39b0_630c_8c91_e8d8_0bbc_0360,
        choices: [
            0x1a7e_8cb0_3abf_4d16_c330_0c4a_ded3_a776,
            0x5a09_610d_62e7_2977_a17c_2185_1446_d07e,
            0x2c68_f590_ef3d_d5e6_6e36_b672_3eee_3f04,
            0x9c28_48e1_1028_bec9_c307_58e6_fef9_6b7c,
            0x7438_c4c2_d1e0_ae2c_f984_5447_9e6e_1611,
            0xe9df_2849_570e_7d65_9e08_0414_377e_1fcd,
            0xeb4f_5206_0826_cd27_4757_9be6_7830_e5ed,
            0xff87_61fb_128a_84e2_75e8_f53e_06e9_7b70,
            0x273f_124b_6380_1334_baef_b667_82f6_305e,
            0x6eab_dee9_c65f_15d2_64f3_0f23_80e0_9700,
            0x65d9_9a06_cfd0_6eea_168f_fe7b_73d0_4ee0,
            0x45bd_bbad_87cf_ce87_4729_16a5_d1a2_fea5,
            0x4de1_c91d_5624_f844_6120_9567_7080_a005,
            0x4a8f_fb09_8e67_d903_ad29_1f33_ddfb_f530,
            0x1b3a_f407_d3c4_aa2c_f622_6e50_817a_b961,
            0xd38d_ee71_85e7_765b_720c_486f_7e86_e6a0,
        ],
        shares: (
            ProofShare {
                u: 0x2c68_f590_ef3d_d5e6_6e36_b672_3eee_3f04,
                v: 0x7438_c4c2_d1e0_ae2c_f984_5447_9e6e_1611,
                h: [
                    0xeb4f_5206_0826_cd27_4757_9be6_7830_e5ed,
                    0xff87_61fb_128a_84e2_75e8_f53e_06e9_7b70,
                    0x273f_124b_6380_1334_baef_b667_82f6_305e,
                    0x6eab_dee9_c65f_15d2_64f3_0f23_80e0_9700,
                    0x65d9_9a06_cfd0_6eea_168f_fe7b_73d0_4ee0,
                ],
                a: 0x45bd_bbad_87cf_ce87_4729_16a5_d1a2_fea5,
                b: 0x4a8f_fb09_8e67_d903_ad29_1f33_ddfb_f530,
                c: 0xd38d_ee71_85e7_765b_720c_486f_7e86_e6a0,
            },
            ProofShare {
                u: 0x9c28_48e1_1028_bec9_c307_58e6_fef9_6b7c,
                v: 0xe9df_2849_570e_7d65_9e08_0414_377e_1fcd,
                h: [
                    0xb0d1_e9a8_966a_190c_0889_468c_29a3_1fd0,
                    0x7837_6d5e_7883_3943_fddc_6f71_5fc9_0fe2,
                    0xb4b9_fe08_d7f4_bc2f_943b_15e8_8df0_8231,
                    0x8119_e83b_0e4d_6ffd_eb1b_0abf_9cba_9c83,
                    0x9024_0e61_c935_897d_8707_367e_20fd_5ba8,
                ],
                a: 0x4de1_c91d_5624_f844_6120_9567_7080_a005,
                b: 0x1b3a_f407_d3c4_aa2c_f622_6e50_817a_b961,
                c: 0xdebc_7e23_eb31_05e4_738e_61b8_8c8a_5786,
            },
        ),
        sums: Sums {
            x: 0xb035_f6d8_e09b_3f70_163d_c7ab_cf82_4f85,
            y: 0x9683_ea98_e15a_2bf9_3f63_7605_2252_7dfb,
            m: 0xb237_e2a9_3962_518d_23d9_41c8_d6ab_cb8c,
            z: 0x035a_8814_bf5c_11be_4411_0855_ecd4_3eb3,
        },
        sigma: 0x8dd7_be2a_beb8_98c6_a2c3_f0c4_fa25_9472,
        openings: Openings {
            d: 0xa2d5_6706_9267_28d9_987e_3c84_9a3d_736a,
            e: 0xe005_3441_1c3f_1c28_3c85_cd53_f884_7dde,
        },
        opened: Openings {
            d: 0xde80_050a_2cd1_9114_918e_31ec_10f7_9a24,
            e: 0x0999_06f7_014f_b33c_6b7b_fb3f_79fd_c19e,
        },
        closings: (
            Closing {
                o: 0x4cec_8526_0a35_b41c_0dab_dd76_2c7c_3fd7,
                tau: 0x3be6_419a_b00d_7759_4ebc_d935_a0d2_396f,
            },
            Closing {
                o: 0x4cec_8526_0a35_b41c_0dab_dd76_2c7c_3fd7,
                tau: 0x2e81_005d_5f33_2d25_d2f6_aaa2_9ed7_612d,
            },
        ),
    },
    Row {
        m: 0x18a0_306b_f0db_8cc0_9272_a062_d686_1928,
        r: 0xa0ee_2c82_9786_0790_8e30_c391_9a7f_442b,
        s: 0x301a_fbbe_26a7_55c6_8c13_422c_c225_71b2,
        choices: [
            0x9f01_7616_05cc_c84c_0dc8_fa43_1048_b48d,
            0x6279_3951_e00b_f7d6_10a8_66cb_8458_a8af,
            0xdd8e_69fa_a9d1_6496_1faf_c84e_5fab_b644,
            0xb6c2_a929_da34_b7ae_7095_de3b_1470_2ed9,
            0x5217_aeb6_2d57_f8cb_2709_1d3a_f4ed_bc4b,
            0xc3d8_c521_8184_f524_403c_b9cf_4766_79d8,
            0xb4d7_3949_2448_29bb_1fa9_e7ab_4496_7d9c,
            0x0ee2_a009_193d_8918_54a5_9b1f_35a3_ad28,
            0xaa99_592f_4c88_46a6_cac3_b2c2_79a6_584e,
            0xd0da_cbee_415a_94a5_a36c_cad8_46ba_f2c8,
            0x8bdf_ae6a_6d65_3ed0_a798_5ffb_6747_6701,
            0x7c6d_610b_e785_6177_56d9_5302_1acd_5f66,
            0x2178_a404_a062_2c37_3a00_8e7e_d95a_86b8,
            0xe914_dbae_e4a8_8a21_b96b_66a8_daf0_c9da,
            0x9fa8_893a_1466_c423_9f6d_74bf_60d1_b2d2,
            0x6723_b81b_2b99_1987_8c38_5fee_e6e5_ae4f,
        ],
        shares: (
            ProofShare {
                u: 0xdd8e_69fa_a9d1_6496_1faf_c84e_5fab_b644,
                v: 0x5217_aeb6_2d57_f8cb_2709_1d3a_f4ed_bc4b,
                h: [
                    0xb4d7_3949_2448_29bb_1fa9_e7ab_4496_7d9c,
                    0x0ee2_a009_193d_8918_54a5_9b1f_35a3_ad28,
                    0xaa99_592f_4c88_46a6_cac3_b2c2_79a6_584e,
                    0xd0da_cbee_415a_94a5_a36c_cad8_46ba_f2c8,
                    0x8bdf_ae6a_6d65_3ed0_a798_5ffb_6747_6701,
                ],
                a: 0x7c6d_610b_e785_6177_56d9_5302_1acd_5f66,
                b: 0xe914_dbae_e4a8_8a21_b96b_66a8_daf0_c9da,
                c: 0x6723_b81b_2b99_1987_8c38_5fee_e6e5_ae4f,
            },
            ProofShare {
                u: 0xb6c2_a929_da34_b7ae_7095_de3b_1470_2ed9,
                v: 0xc3d8_c521_8184_f524_403c_b9cf_4766_79d8,
                h: [
                    0x209f_0c86_1a86_498c_2d96_fdc3_78d3_d075,
                    0x9e68_8b99_2e75_5225_e415_e3fa_a580_9718,
                    0xd339_0c71_bfa2_a411_3d13_176d_aa1f_685a,
                    0x1080_914d_f9e6_dab4_1886_6cb6_caea_5ccb,
                    0xfc05_7a03_f838_7483_b998_7844_4503_7d0d,
                ],
                a: 0x2178_a404_a062_2c37_3a00_8e7e_d95a_86b8,
                b: 0x9fa8_893a_1466_c423_9f6d_74bf_60d1_b2d2,
                c: 0x12c2_1602_7a3a_99b7_8d66_99c3_119a_abaf,
            },
        ),
        sums: Sums {
            x: 0xd2e1_7bfd_1d9d_ad7c_e4a8_0557_4ba9_5031,
            y: 0x617e_f3d7_e693_6f2f_22d3_d2b8_7892_ad4f,
            m: 0xc6b5_17ed_e6ee_d909_a9c4_7922_f881_86a0,
            z: 0x93a1_6936_33cd_e969_fd72_e84d_eec7_afee,
        },
        sigma: 0x532e_39a6_f1d8_517f_81f3_6ed6_416a_7ead,
        openings: Openings {
            d: 0xc842_8a48_21fa_9d2d_a3da_26a4_d8fe_3d53,
            e: 0xa8ac_960a_3d61_2085_32b3_f163_a362_3cef,
        },
        opened: Openings {
            d: 0x4e26_302e_e676_de0c_2cbe_16eb_a6b7_8f65,
            e: 0x4178_622d_d684_bcdf_6b24_bcf9_5cf1_f15d,
        },
        closings: (
            Closing {
                o: 0xb0c5_a7e7_6838_e57f_ed6a_5fdf_6f67_2990,
                tau: 0xe6f7_b1ae_5587_da22_3078_ebb9_1436_4940,
            },
            Closing {
                o: 0xb0c5_a7e7_6838_e57f_ed6a_5fdf_6f67_2990,
                tau: 0x90a5_c8dd_8052_e385_97a5_8c78_329e_93f2,
            },
        ),
    },
    Row {
        m: 0x4906_377d_cd8b_4771_7198_91e2_103e_0d5d,
        r: 0xb48f_b805_24a6_e01b_46e7_2be0_106f_54fb,
        s: 0xe761_c349_b520_b1f2_62a8_c0c2_49b0_1e9d,
        choices: [
            0x86b8_b297_5c93_72e5_541c_5897_c027_f039,
            0x8bdd_6b2a_baac_c53d_0615_140b_0403_fde8,
            0x60a0_53fe_7de1_2886_c8c6_b0a5_f662_329c,
            0xcf59_c60e_1ae2_0c2e_7133_4d1b_1670_ec98,
            0x9974_5c1f_dcbe_9a45_8b8c_2cfd_f95c_2c9c,
            0x473b_5ab4_fee2_a8ea_8487_9717_51bf_8b66,
            0xcab9_c919_6b71_67fe_2b9a_dca8_e4b6_f94f,
            0x8b6e_e73f_f960_44ad_07ed_b722_9aaf_662d,
            0xe8a3_2332_3eb8_d462_dd57_75a6_5141_d41a,
            0xa324_1713_713f_65fd_b341_74d6_d5dd_7e59,
            0x9e45_0b17_8233_9add_ddec_a644_ab6a_de24,
            0x734a_0391_fbd4_1158_c3bc_e26f_b188_c187,
            0xd253_9c66_c724_d6ec_c4a5_0dad_4253_302b,
            0x4bd7_175f_1042_f609_e24a_f4bc_eb83_c165,
            0xc8d7_eb0f_4fe7_1442_ccf2_cf39_6081_1411,
            0xe502_249a_5ce8_eace_af19_8e06_7d1c_e6b7,
        ],
        shares: (
            ProofShare {
                u: 0x60a0_53fe_7de1_2886_c8c6_b0a5_f662_329c,
                v: 0x9974_5c1f_dcbe_9a45_8b8c_2cfd_f95c_2c9c,
                h: [
                    0xcab9_c919_6b71_67fe_2b9a_dca8_e4b6_f94f,
                    0x8b6e_e73f_f960_44ad_07ed_b722_9aaf_662d,
                    0xe8a3_2332_3eb8_d462_dd57_75a6_5141_d41a,
                    0xa324_1713_713f_65fd_b341_74d6_d5dd_7e59,
                    0x9e45_0b17_8233_9add_ddec_a644_ab6a_de24,
                ],
                a: 0x734a_0391_fbd4_1158_c3bc_e26f_b188_c187,
                b: 0x4bd7_175f_1042_f609_e24a_f4bc_eb83_c165,
                c: 0xe502_249a_5ce8_eace_af19_8e06_7d1c_e6b7,
            },
            ProofShare {
                u: 0xcf59_c60e_1ae2_0c2e_7133_4d1b_1670_ec98,
                v: 0x473b_5ab4_fee2_a8ea_8487_9717_51bf_8b66,
                h: [
                    0x60a7_a1cb_9701_4d77_9362_3f9e_0ae7_0535,
                    0x123a_1c4e_7a5b_3498_f7f8_a8d4_699c_0df6,
                    0xb924_b068_618d_c1a7_3cf9_440d_d31a_f394,
                    0x685d_8a66_4d33_ad15_daa4_272c_9962_eef2,
                    0xf45f_8293_fb27_d567_bea0_9ae4_19af_abb6,
                ],
                a: 0xd253_9c66_c724_d6ec_c4a5_0dad_4253_302b,
                b: 0xc8d7_eb0f_4fe7_1442_ccf2_cf39_6081_1411,
                c: 0xa55d_bd80_7232_33f9_58ab_d4d0_89f0_a94c,
            },
        ),
        sums: Sums {
            x: 0x49b8_02f3_c106_7fc4_e802_d4d9_9513_0b2d,
            y: 0x19a0_44ae_5171_cda4_7049_13d5_548a_041c,
            m: 0x4a87_bf5e_969f_bfb1_9d85_4db5_c991_b267,
            z: 0xd6f2_a7dd_15eb_ede5_805e_4019_4d03_acc7,
        },
        sigma: 0xc89b_4356_01ed_b0ac_94cc_bacd_d564_847e,
        openings: Openings {
            d: 0x1069_8c87_0128_d6d8_6fdc_e635_36bc_b419,
            e: 0x7587_bbe3_a03a_aaa3_9d84_29d0_0ad7_1984,
        },
        opened: Openings {
            d: 0xdef1_b68a_ae30_5af7_fd42_478d_bf80_ec39,
            e: 0xccda_0286_2464_27b8_b22a_4fa6_671a_ceb1,
        },
        closings: (
            Closing {
                o: 0x43e7_a907_f12e_d153_d3aa_a926_810d_0c28,
                tau: 0xa138_afd3_1243_272e_4db2_17d4_a205_a90d,
            },
            Closing {
                o: 0x43e7_a907_f12e_d153_d3aa_a926_810d_0c28,
                tau: 0xdab7_5dcc_34f5_b4e1_7bf6_c151_429c_1e00,
            },
        ),
    },
    Row {
        m: 0xb0c6_e90c_d522_6f8d_4c8b_f6bd_ac6d_c61e,
        r: 0x6577_e105_d4c4_dbe9_92ff_3d3b_0975_a269,
        s: 0x5e9d_877e_f7c0_1f8f_a89c_a7ec_a21f_30cf,
        choices: [
            0xc86f_cd13_798b_5ce3_67ac_e870_370c_fa5a,
            0xc0ce_01f7_66b0_363b_c098_1db7_d0e0_3ad2,
            0xbe0d_e450_d325_dfe7_2476_b3a3_eb22_6b8a,
            0x47c3_a4a1_54f0_77db_fac0_bfdc_8ab6_09e7,
            0x4ccf_4666_fb6f_a4ed_20c3_06a0_ed4f_d7d1,
            0x9f29_6b36_9c97_0653_b618_e954_ebd4_1f4d,
            0x3a46_e601_a4eb_c6ab_2c0c_cdcc_d309_8263,
            0x88a0_b681_feb9_4509_13d9_10f1_d629_b37c,
            0x3026_d50e_dfb0_bce8_28e8_a89e_61fb_6441,
            0x5cfc_8ad7_f9f1_f54d_8793_70be_bfae_a064,
            0x30b5_6a3a_bcde_35c5_091b_94f3_c923_d962,
            0xa7c1_015a_a819_a0fd_181f_f3b4_f32f_ba38,
            0x724b_925c_c4ce_c7b1_7690_e30e_91f3_878e,
            0xb5e0_0943_8ca5_3c44_959a_1246_5eb6_7745,
            0x152d_5abb_57f5_3d45_fdff_aa05_e6dc_87d8,
            0x50f5_32f9_a675_43b8_6150_316a_de3d_375a,
        ],
        shares: (
            ProofShare {
                u: 0xbe0d_e450_d325_dfe7_2476_b3a3_eb22_6b8a,
                v: 0x4ccf_4666_fb6f_a4ed_20c3_06a0_ed4f_d7d1,
                h: [
                    0x3a46_e601_a4eb_c6ab_2c0c_cdcc_d309_8263,
                    0x88a0_b681_feb9_4509_13d9_10f1_d629_b37c,
                    0x3026_d50e_dfb0_bce8_28e8_a89e_61fb_6441,
                    0x5cfc_8ad7_f9f1_f54d_8793_70be_bfae_a064,
                    0x30b5_6a3a_bcde_35c5_091b_94f3_c923_d962,
                ],
                a: 0xa7c1_015a_a819_a0fd_181f_f3b4_f32f_ba38,
                b: 0xb5e0_0943_8ca5_3c44_959a_1246_5eb6_7745,
                c: 0x50f5_32f9_a675_43b8_6150_316a_de3d_375a,
            },
            ProofShare {
                u: 0x47c3_a4a1_54f0_77db_fac0_bfdc_8ab6_09e7,
                v: 0x9f29_6b36_9c97_0653_b618_e954_ebd4_1f4d,
                h: [
                    0xbe4a_6099_9c04_e2b8_9787_62de_8b24_60b7,
                    0x5a1a_3f3b_badb_681f_0955_8960_d18f_257d,
                    0xc736_c71f_b155_999b_334b_1c72_7406_35f3,
                    0xabf0_8ccc_d9b8_adca_bc0a_7384_03dc_3c83,
                    0x4c3f_d2b3_2123_0731_25c5_61fa_f12e_bc02,
                ],
                a: 0x724b_925c_c4ce_c7b1_7690_e30e_91f3_878e,
                b: 0x152d_5abb_57f5_3d45_fdff_aa05_e6dc_87d8,
                c: 0xb3a6_19fa_c26a_d2df_fde1_a399_254b_6d38,
            },
        ),
        sums: Sums {
            x: 0x6800_94e3_11db_39aa_8127_9e61_2f51_d955,
            y: 0x88bf_6244_f22a_14c0_f46b_7fb5_56d9_715a,
            m: 0x91ba_49ec_2741_f872_c692_493f_495e_bd87,
            z: 0x020d_ba51_a1b8_109a_a457_7453_52e9_fb70,
        },
        sigma: 0x2c90_bea8_aefd_ff04_a133_2a54_b7b6_a558,
        openings: Openings {
            d: 0xd8f6_7bca_9239_da28_3fee_8ced_9326_8609,
            e: 0xc2cf_7f21_5c75_a1d2_cb68_7cdf_e75f_4848,
        },
        opened: Openings {
            d: 0x9456_edf3_38a8_64b7_4d86_7a66_cd5b_6412,
            e: 0xaeec_717a_a00d_3f84_b11f_ee12_4939_41f2,
        },
        closings: (
            Closing {
                o: 0x7404_d261_a40e_34f4_09fd_b0e6_8858_6dbb,
                tau: 0xa8b3_2bb3_fbfc_cfad_4707_b10c_76bc_2efb,
            },
            Closing {
                o: 0x7404_d261_a40e_34f4_09fd_b0e6_8858_6dbb,
                tau: 0x02be_950b_85b3_f841_b893_6b80_bd0a_ad26,
            },
        ),
    },
];

fn proves(row: &Row) -> bool {
    let (zero, one) = prove(row.m, row.r, row.s, &row.choices);
    zero == row.shares.0 && one == row.shares.1
}

fn opens(sums: &Sums, share: &ProofShare, sigma: u128, opened: &Openings) -> bool {
    open_share(sums, share, sigma) == *opened
}

fn closing_of(
    server: u8,
    sums: &Sums,
    share: &ProofShare,
    sigma: u128,
    opened: &Openings,
) -> Closing
    requires { server ≤ 1 }
{
    close_share(server, sums, share, sigma, opened)
}

fn is_judged(zero: &Closing, one: &Closing) -> bool {
    judge(zero, one)
}

// Both servers' closings are the row's, and their sum isn't a pass.
fn closes(row: &Row) -> bool {
    let (share0, share1) = &row.shares;
    let zero = closing_of(0, &row.sums, share0, row.sigma, &row.opened);
    let one = closing_of(1, &row.sums, share1, row.sigma, &row.opened);
    zero == row.closings.0 && one == row.closings.1 && !is_judged(&zero, &one)
}

fn are_right(rows: &[Row]) -> bool {
    let mut right = true;
    for row in rows {
        right = proves(row) & right;
        right = opens(&row.sums, &row.shares.0, row.sigma, &row.openings) & right;
        right = closes(row) & right;
    }
    right
}

#[test]
fn shares_openings_and_closings_match_an_independent_program(rt: HostRuntime) {
    assert!(rt; are_right(&ROWS));
}

// Of the proof of m = 1 with r = 2 and s = 3 whose f is 2t² and whose g is 3t, at the point 4: with this
// constant of h and this product of the triple.
fn closes_with(constant: u128, c: u128, closing: Closing) -> bool {
    let sums = Sums {
        x: 2,
        y: 3,
        m: 1,
        z: 1,
    };
    let share = ProofShare {
        u: 0,
        v: 0,
        h: [constant, 0, 0, 1, 0],
        a: 1,
        b: 1,
        c,
    };
    let opened = Openings { d: 15, e: 6 };
    opens(&sums, &share, 4, &opened) && closing_of(0, &sums, &share, 4, &opened) == closing
}

// Whether it closes with this tau, and whether that is judged as good.
fn closed(constant: u128, c: u128, tau: u128) -> [bool; 2] {
    let closing = Closing { o: 0, tau };
    [
        closes_with(constant, c, closing),
        is_judged(&closing, &Closing { o: 0, tau: 0 }),
    ]
}

/// The proof as it is, with another constant of h, and with a triple's error that hides this at the point.
#[test]
fn a_wrong_proof_passes_only_where_a_triple_hides_it(rt: HostRuntime) {
    let told = [closed(0, 1, 0), closed(1, 1, 4), closed(1, 5, 0)];
    assert!(rt; told == [[true, true], [true, false], [true, true]]);
}

// The shares of a write to the second of these addresses, whose leaves there have this sum.
fn shares_at(addresses: &[u128; 3], ckey: &[u8; 32], sum: u128) -> (ProofShare, ProofShare) {
    let (r, s) = challenge(ckey, addresses[1]);
    prove(sum, r, s, &ROWS[0].choices)
}

// Whether both servers accept, at the point 77, leaves that differ at the second address alone.
fn both_accept(
    addresses: &[u128; 3],
    ckey: &[u8; 32],
    zero: &ProofShare,
    one: &ProofShare,
) -> bool {
    let leaves = WriteLeaves {
        zero: &[11, 12, 13],
        one: &[11, 1 << 70, 13],
    };
    let shares = ProofShares { zero, one };
    servers_accept(leaves, addresses, ckey, shares, 77)
}

/// Leaves that differ at the second of three addresses, with an honest proof and with one whose triple is
/// wrong.
#[test]
fn both_servers_accept_an_honest_proof_and_no_wrong_triple(rt: HostRuntime) {
    let addresses = [3u128, 1 << 90, u128::MAX];
    let ckey = [9u8; 32];
    let (zero, one) = shares_at(&addresses, &ckey, 12 ^ (1 << 70));
    let wrong = ProofShare {
        c: one.c ^ 1,
        ..one
    };
    let accepted = [
        both_accept(&addresses, &ckey, &zero, &one),
        both_accept(&addresses, &ckey, &zero, &wrong),
    ];
    assert!(rt; accepted == [true, false]);
}
